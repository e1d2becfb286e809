// A link in memory.
ghost use Rattle.std.specs.Prelude.{◌≡◌, ◌+◌, ◌≤◌, [], IfOk, vec_len, vec_capacity};
ghost use Rattle.tac_io.specs.Calls.{no_calls_yet};

use crate::memory::failures::Failures;
use crate::memory::faults::Faults;
use crate::memory::give::give;
use crate::{Failed, Link};
use std::alloc::{AllocError, Global};

/// A link in memory. It gives the bytes it was made with, keeps those it is sent, as many as it has
/// room for, and fails at the reads and writes that the caller lists.
#[derive(Drop)]
pub struct MemLink {
    bytes: Vec<u8>,
    // How many of its bytes were read.
    at: usize,
    // The most bytes that a read gives.
    most_at_once: usize,
    reads: Faults,
    sent: Vec<u8>,
    // How many more bytes it has room for.
    room: usize,
    writes: Faults,
    read_failures: Failures,
    write_failures: Failures,
    ghost within: { at ≤ vec_len bytes },
    ghost reserved: { vec_len sent + room ≤ vec_capacity sent },
}

impl MemLink {
    ghost use Rattle.std.specs.Prelude.{Err};
    ghost use Rattle.tac_io.specs.Calls.{one_call_more};
    ghost use Rattle.tac_io.specs.MemLink.{ReadsNext, link_left, link_most, link_read_failures, link_reads, link_room, link_sent, link_taken, link_write_failures, link_writes};

    /// Returns a link that gives `bytes`, and has room for `room` bytes that it is sent. A read
    /// gives at most `most_at_once` bytes, and at least one if one is left. `failing_reads` lists
    /// the reads that are to fail, and `failing_writes` the writes, each counted from 1. A write
    /// without room left also fails.
    pub fn new(
        alloc: Global,
        bytes: Vec<u8>,
        most_at_once: usize,
        room: usize,
        failing_reads: Vec<u64>,
        failing_writes: Vec<u64>,
    ) -> Result<MemLink, AllocError>
        ensures taken { IfOk result (λ link. link_taken link ≡ []) }
        ensures left { IfOk result (λ link. link_left link ≡ bytes.items) }
        ensures most { IfOk result (λ link. link_most link ≡ most_at_once) }
        ensures sent { IfOk result (λ link. link_sent link ≡ []) }
        ensures room { IfOk result (λ link. link_room link ≡ room) }
        ensures reads { IfOk result (λ link. link_reads link ≡ no_calls_yet failing_reads.items) }
        ensures writes { IfOk result (λ link. link_writes link ≡ no_calls_yet failing_writes.items) }
        ensures failures { IfOk result (λ link. (link_read_failures link ≡ []) × (link_write_failures link ≡ [])) }
    {
        Ok(MemLink {
            bytes,
            at: 0,
            most_at_once,
            reads: Faults::new(failing_reads),
            sent: Vec::with_capacity(alloc, room)?,
            room,
            writes: Faults::new(failing_writes),
            read_failures: Failures::none(),
            write_failures: Failures::none(),
        })
    }

    // Returns the number of the next read, counted from 1.
    pub(crate) fn next_read(&self) -> u64
        ensures { result ≡ one_call_more (link_reads self.now).made }
    {
        self.reads.next()
    }

    // Makes a read that fails.
    pub(crate) fn fail_read(&mut self) -> Failed
        ensures { ReadsNext self.old self.new (Err result) [] }
    {
        self.reads.next_fails();
        self.read_failures = self.read_failures.with(&self.at);
        self.reads.add()
    }

    // Returns the bytes that are left to read.
    pub(crate) fn left(&self) -> &[u8]
        ensures { result.now ≡ link_left self.now }
    {
        &self.bytes[self.at..]
    }

    /// Returns the bytes that it was sent, in order.
    pub fn sent(&self) -> &[u8]
        ensures { result.now ≡ link_sent self.now }
    {
        &self.sent
    }
}

impl Link for MemLink {
    ghost use Rattle.std.specs.Prelude.{◌↔◌, ◌<◌, IsErr, IfOk, length};
    ghost use Rattle.tac_io.specs.Calls.{IsNextToFail};
    ghost use Rattle.tac_io.specs.MemLink.{ReadsNext, WritesNext, link_reads, link_share, link_state};

    ghost state = { link_state };

    fn read(&mut self, into: &mut [u8]) -> Result<usize, Failed>
        requires { 0 < length into.old }
        ensures fails { IsErr result ↔ IsNextToFail (link_reads self.old) }
        ensures share { IfOk result (λ n. n ≡ link_share self.old (length into.new)) }
        ensures next { ReadsNext self.old self.new result into.new }
    {
        if self.reads.next_fails() {
            self.read_failures = self.read_failures.with(&self.at);
            return Err(self.reads.add());
        }
        let (_, left) = self.bytes.split_at(self.at);
        let count = give(left, self.most_at_once, into);
        self.at += count;
        Ok(count)
    }

    fn write(&mut self, piece: &[u8]) -> Result<usize, Failed>
        requires { 0 < length piece.now }
        ensures { WritesNext self.old self.new result piece.now }
    {
        let count = piece.len().min(self.room);
        if self.writes.next_fails() || count == 0 {
            self.write_failures = self.write_failures.with(&self.sent.len());
            return Err(self.writes.add());
        }
        if self.sent.extend_from_slice(&piece[..count]).is_err() {
            unreachable!()
        }
        self.room -= count;
        Ok(count)
    }

    fn faults(&self) -> u64 {
        self.reads.count()
    }

    fn write_faults(&self) -> u64 {
        self.writes.count()
    }
}
