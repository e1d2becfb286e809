// A buffer with the last line and the unread bytes: those in no line yet.
ghost use Rattle.std.specs.Prelude.{◌≡◌, [], ◌+◌, ◌<◌, ◌≤◌, IfSome, IfNone, IfOk, length, take, drop, false, MatchResult};
ghost use Rattle.tac_io.specs.{HasCause, ReadsMore, has_end, BeginsWithLine, SendsNothing, known_then, NotesFailure, ReadsAtMost};

use crate::{Failed, Link};
use std::marker::Model;

/// A buffer of 1024 bytes. It holds the last line, and the unread bytes: those in no line yet.
#[derive(Drop)]
pub(crate) struct Buffer {
    bytes: [u8; 1024],
    // The last line is from `line` to `line_end`.
    line: usize,
    line_end: usize,
    // The unread bytes are from `from` to `to`.
    from: usize,
    to: usize,
}

impl Model for Buffer {
    ghost use Rattle.std.specs.Prelude.{◌≤◌, slice_range};
    ghost use Rattle.tac_io.specs.HeldBytes.{Held};

    ghost Value = { Held };

    ghost view = { λ b. record { line = slice_range b.bytes b.line b.line_end; unread = slice_range b.bytes b.from b.to } };

    ghost invariant = { λ b. (b.line ≤ b.line_end) × (b.line_end ≤ 1024) × (b.from ≤ b.to) × (b.to ≤ 1024) };
}

// Returns the index of the first line end.
fn end_of_line(bytes: &[u8]) -> Option<usize>
    ensures found { IfSome result (λ i. (i < length bytes.now) × BeginsWithLine bytes.now (take i bytes.now) (drop (i + 1) bytes.now)) }
    ensures none { IfNone result (has_end bytes.now ≡ false) }
{
    for (i, byte) in bytes.iter().enumerate() {
        if *byte == b'\n' {
            return Some(i);
        }
    }
    None
}

// Reads at most `most` bytes of the link into the buffer, at index `at`.
fn read_at<L: Link>(link: &mut L, bytes: &mut [u8], at: usize, most: usize) -> Result<usize, Failed>
    requires most { 0 < most }
    requires room { at < length bytes.old }
    ensures front { take at bytes.new ≡ take at bytes.old }
    ensures count { IfOk result (λ n. at + n ≤ length bytes.old) }
    ensures len { length bytes.new ≡ length bytes.old }
    ensures taken { MatchResult result
        (λ n. (L.state link.new).taken ≡ known_then (L.state link.old).taken (take n (drop at bytes.new)))
        (λ _. (L.state link.new).taken ≡ (L.state link.old).taken) }
    ensures left { ReadsAtMost most (L.state link.old).left (L.state link.new).left result (drop at bytes.new) }
    ensures cause { HasCause (L.state link.old).reads (L.state link.new).reads result }
    ensures noted { NotesFailure (L.state link.old).taken (L.state link.old).read_failures (L.state link.new).read_failures result }
    ensures sent { SendsNothing (L.state link.old) (L.state link.new) }
{
    let room = most.min(bytes.len() - at);
    link.read(&mut bytes[at..at + room])
}

impl Buffer {
    pub(crate) fn new() -> Buffer
        ensures { result.unread ≡ [] }
    {
        Buffer {
            bytes: [0; 1024],
            line: 0,
            line_end: 0,
            from: 0,
            to: 0,
        }
    }

    // Returns the last line.
    pub(crate) fn line(&self) -> &[u8]
        ensures { result.now ≡ self.now.line }
    {
        &self.bytes[self.line..self.line_end]
    }

    // Returns the unread bytes.
    fn unread(&self) -> &[u8]
        ensures { result.now ≡ self.now.unread }
    {
        &self.bytes[self.from..self.to]
    }

    // Returns the number of unread bytes.
    pub(crate) fn len(&self) -> usize
        ensures count { result ≡ length self.now.unread }
        ensures most { result ≤ 1024 }
    {
        self.to - self.from
    }

    // Takes the first line, and returns its length.
    pub(crate) fn cut_line(&mut self) -> Option<usize>
        ensures cut { IfSome result (λ n. BeginsWithLine self.old.unread self.new.line self.new.unread × (n ≡ length self.new.line)) }
        ensures none { IfNone result ((has_end self.old.unread ≡ false) × (self.new ≡ self.old)) }
    {
        let length = end_of_line(self.unread())?;
        self.line = self.from;
        self.line_end = self.from + length;
        self.from = self.line_end + 1;
        Some(length)
    }

    // Drops the unread bytes.
    pub(crate) fn discard(&mut self)
        ensures { self.new.unread ≡ [] }
    {
        self.from = 0;
        self.to = 0;
    }

    // Appends at most `most` bytes of the link to the unread bytes. The last line is
    // dropped.
    pub(crate) fn fill<L: Link>(&mut self, link: &mut L, most: usize) -> Result<usize, Failed>
        requires most { 0 < most }
        requires room { length self.old.unread < 1024 }
        ensures bytes { ReadsMore self.old.unread self.new.unread (L.state link.old) (L.state link.new) most result }
        ensures cause { HasCause (L.state link.old).reads (L.state link.new).reads result }
        ensures noted { NotesFailure (L.state link.old).taken (L.state link.old).read_failures (L.state link.new).read_failures result }
        ensures sent { SendsNothing (L.state link.old) (L.state link.new) }
    {
        let len = self.to - self.from;
        self.bytes.copy_within(self.from..self.to, 0);
        self.line = 0;
        self.line_end = 0;
        self.from = 0;
        self.to = len;
        let count = read_at(link, &mut self.bytes, len, most)?;
        self.to = len + count;
        Ok(count)
    }
}
