// A link, line by line.
ghost use Rattle.std.specs.Prelude.{◌≡◌, [], ◌<◌, ◌≤◌, length, true, false, MatchBool, Some, None};
ghost use Rattle.tac_base.specs.declared.limits.TheConstants.{LINK_BYTES};
ghost use Rattle.tac_io.specs.{Answers, HasLineCause, IsDecided, IsKind, OnlySends, SendsNothing};

use crate::buffer::Buffer;
use crate::line_got::LineGot;
use crate::{Failed, Link};
use tac_base::limits::{LINE_BYTES, LINK_BYTES};

// Drops the unread bytes of a line that is already too long, and returns whether it is.
fn skips(buffer: &mut Buffer, long: bool) -> bool
    ensures skips { MatchBool result
        ((buffer.new.unread ≡ []) × (long ≡ false → LINE_BYTES < length buffer.old.unread))
        ((buffer.new.unread ≡ buffer.old.unread) × (long ≡ false)) }
    ensures room { length buffer.new.unread ≤ LINE_BYTES }
{
    if long || buffer.len() > LINE_BYTES as usize {
        buffer.discard();
        return true;
    }
    false
}

// Returns `TooLong` or `Line`.
fn kind(long: bool, length: usize) -> LineGot
    ensures { IsKind result long length }
{
    if long || length > LINE_BYTES as usize {
        LineGot::TooLong
    } else {
        LineGot::Line
    }
}

// Reads the next line of a link.
fn next_line<L: Link>(link: &mut L, buffer: &mut Buffer, taken: &mut u32) -> LineGot
    requires { taken.old ≤ LINK_BYTES }
    ensures answer { Answers (record { held = buffer.old; count = taken.old; link = L.state link.old })
        (record { held = buffer.new; count = taken.new; link = L.state link.new }) result }
    ensures budget { taken.new ≤ LINK_BYTES }
    ensures decided { IsDecided buffer.old.unread taken.old → link.new ≡ link.old }
    ensures cause { HasLineCause (L.state link.old) (L.state link.new) result }
    ensures sent { SendsNothing (L.state link.old) (L.state link.new) }
{
    let mut long = false;
    'bytes: loop {
        if let Some(length) = buffer.cut_line() {
            return kind(long, length);
        }
        if *taken == LINK_BYTES {
            return LineGot::Budget;
        }
        long = skips(buffer, long);
        let Ok(count) = buffer.fill(link, (LINK_BYTES - *taken) as usize) else {
            return LineGot::Failed;
        };
        if count == 0 {
            return LineGot::End;
        }
        *taken += count as u32;
    }
}

// Sends all bytes to a link.
fn send_all<L: Link>(link: &mut L, bytes: &[u8]) -> Result<(), Failed>
    ensures { OnlySends (L.state link.old) (L.state link.new) bytes.now result }
{
    let mut done = 0;
    while done < bytes.len() {
        let (_, rest) = bytes.split_at(done);
        done += link.write(rest)?;
    }
    Ok(())
}

/// A link that is read line by line, with a buffer of 1024 bytes. A line ends with byte 10.
#[derive(Drop)]
pub struct Lines<L> {
    link: L,
    buffer: Buffer,
    // How many bytes were taken from the link.
    taken: u32,
    last: Option<LineGot>,
    ghost budget: { taken ≤ LINK_BYTES },
}

impl<L: Link> Lines<L> {
    ghost use Rattle.tac_io.specs.AnswersInTurn.{IsInTurn};
    ghost use Rattle.tac_io.specs.LineAnswers.{goes_on};
    ghost use Rattle.tac_io.specs.Lines.{KeepsPlace, count_of, held_of, last_of, link_of, link_place};

    /// Returns the lines of a link; no line was read yet.
    pub fn new(link: L) -> Lines<L>
        ensures link { link_of result ≡ link }
        ensures unread { (held_of result).unread ≡ [] }
        ensures count { count_of result ≡ 0 }
        ensures last { last_of result ≡ None }
    {
        Lines {
            link,
            buffer: Buffer::new(),
            taken: 0,
            last: None,
        }
    }

    /// Reads until the next line end, the link's end, a fault, or until 67,108,864 bytes were taken
    /// from the link, and returns which came first. After `End`, `Failed` and `Budget` there is no
    /// next line. If the bytes taken before decide the result, the link is unchanged. After a failed
    /// read it does not read again.
    pub fn next(&mut self) -> LineGot
        requires { goes_on (last_of self.old) ≡ true }
        ensures answer { Answers (link_place L.state self.old) (link_place L.state self.new) result }
        ensures in_turn { IsInTurn (link_place L.state self.old) (link_place L.state self.new) result }
        ensures last { last_of self.new ≡ Some result }
        ensures budget { count_of self.new ≤ LINK_BYTES }
        ensures decided { IsDecided (held_of self.old).unread (count_of self.old) → link_of self.new ≡ link_of self.old }
        ensures cause { HasLineCause (L.state (link_of self.old)) (L.state (link_of self.new)) result }
        ensures sent { SendsNothing (L.state (link_of self.old)) (L.state (link_of self.new)) }
    {
        let got = next_line(&mut self.link, &mut self.buffer, &mut self.taken);
        self.last = Some(got);
        got
    }

    /// Returns the line that was read last, without its line end.
    pub fn line(&self) -> &[u8]
        requires { last_of self.now ≡ Some LineGot.Line }
        ensures { result.now ≡ (held_of self.now).line }
    {
        self.buffer.line()
    }

    /// Sends all bytes to the link, in as many writes as needed, and in none if there are no
    /// bytes. It returns `Failed` exactly if the link counted a write fault in this call. Then it
    /// sent some of the first bytes, or none, but not all, and sent nothing after the fault.
    pub fn send(&mut self, bytes: &[u8]) -> Result<(), Failed>
        ensures sends { OnlySends (L.state (link_of self.old)) (L.state (link_of self.new)) bytes.now result }
        ensures place { KeepsPlace self.old self.new }
    {
        send_all(&mut self.link, bytes)
    }

    /// Returns the link. It drops the bytes that were read from the link but belong to no line.
    pub fn into_link(self) -> L
        ensures { result ≡ link_of self }
    {
        let Lines { link, .. } = self;
        link
    }
}
