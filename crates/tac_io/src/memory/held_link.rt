// A link in memory that gives one line at a time, and may wait for another link.
ghost use Rattle.std.specs.Prelude.{◌≡◌, ◌<◌, ◌≤◌, ◌==◌, ◌^◌, [], ℕ, MatchBool, IfSome, count_by, false, length, position, true};
ghost use Rattle.tac_io.specs.LineText.{line_length};
ghost use Rattle.tac_io.specs.Looks.{SawEnough, SawFewer};

use crate::{Failed, Link, MemLink};
use std::sync::Arc;
use std::sync::atomic::{AtomicU64, Ordering};

/// How often a wait for lines looks by default.
pub const MOST_TURNS: u32 = 1_000_000_000;

/// How many lines a link was sent so far. The link shares it with those that wait for it.
pub type LinesSent = Arc<AtomicU64>;

/// A read that returns only after another link was sent a number of lines.
#[derive(Drop)]
pub struct Hold<C = LinesSent> {
    /// Which read it is, counted from 1. A link never holds up its first read.
    pub read: u64,
    /// The count of the lines that the other link was sent.
    pub other: C,
    /// How many lines the read waits for, including those of the welcome.
    pub lines: u64,
    ghost later: { 1 < read },
}

/// A `MemLink` whose reads give at most one line each. One read can be held up until another link
/// was sent a number of lines: it looks at that number up to 1,000,000,000 times, or as often as
/// the caller set, and then fails.
#[derive(Drop)]
pub struct HeldLink<C = LinesSent> {
    link: MemLink,
    hold: Option<Hold<C>>,
    lines_sent: LinesSent,
    turns: u32,
}

// Returns the index of the first line end.
fn line_end(bytes: &[u8]) -> Option<usize>
    ensures place { result ≡ position (λ byte. byte == 10) bytes.now }
    ensures within { IfSome result (λ place. place < length bytes.now) }
{
    bytes.iter().position(|byte| *byte == b'\n')
}

// Returns the length of the first line, with its end.
fn line_len(bytes: &[u8]) -> usize
    ensures value { result ≡ line_length bytes.now }
    ensures within { result ≤ length bytes.now }
    ensures some { result ≡ 0 → bytes.now ≡ [] }
{
    match line_end(bytes) {
        Some(place) => place + 1,
        None => bytes.len(),
    }
}

// Returns how many lines end in the bytes.
fn line_ends(bytes: &[u8]) -> u64
    ensures { result ≡ count_by (λ byte. byte == 10) bytes.now }
{
    bytes.iter().filter(|byte| **byte == b'\n').count() as u64
}

/// A count of lines to which others add.
pub trait LineCount {
    /// Whether a look may return this number and leave the count in this state.
    ghost shows: { Self → ℕ → Self → Type 0 };

    /// Looks at the count once.
    fn look(&mut self) -> u64
        ensures { shows self.old result self.new };
}

// std says nothing about the number that an atomic shows, since any thread may change it.
impl LineCount for LinesSent {
    ghost shows = { λ _ _ _. Unit {0} };

    fn look(&mut self) -> u64 {
        self.load(Ordering::SeqCst)
    }
}

/// Looks at a count until it shows at least `lines`, at most `turns` times. Returns whether it did.
pub fn was_sent<C: LineCount>(count: &mut C, lines: u64, turns: u32) -> bool
    ensures { MatchBool result
        (SawEnough C.shows count.old count.new lines turns)
        (SawFewer C.shows count.old count.new lines turns) }
{
    for _ in 0..turns {
        if count.look() >= lines {
            return true;
        }
    }
    false
}

impl<C: LineCount> HeldLink<C> {
    ghost use Rattle.tac_io.specs.HeldLink.{IsNextHeld, Waits, held_hold, held_link, held_turns};
    ghost use Rattle.tac_io.specs.MemLink.{link_sent};

    /// Returns a held link over `link`. It counts each line end that it is sent in `lines_sent`.
    pub fn new(link: MemLink, lines_sent: LinesSent, hold: Option<Hold<C>>) -> HeldLink<C>
        ensures { result ≡ record { link = link; hold = hold; lines_sent = lines_sent; turns = 10 ^ 9 } }
    {
        HeldLink {
            link,
            hold,
            lines_sent,
            turns: MOST_TURNS,
        }
    }

    /// Returns the same link, whose held-up read looks at most `turns` times.
    pub fn giving_up_after(mut self, turns: u32) -> HeldLink<C>
        ensures { result ≡ record self { turns = turns } }
    {
        self.turns = turns;
        self
    }

    /// Returns the bytes that it was sent, in order.
    pub fn sent(&self) -> &[u8]
        ensures { result.now ≡ link_sent (held_link self.now) }
    {
        self.link.sent()
    }

    // Waits if the next read is held up, and returns whether the read can proceed.
    fn answers(&mut self) -> bool
        ensures waits { IsNextHeld self.old → Waits C.shows self.old (held_hold self.new) result }
        ensures held { result ≡ false → IsNextHeld self.old }
        ensures free { ¬ IsNextHeld self.old → held_hold self.new ≡ held_hold self.old }
        ensures same { (held_link self.new ≡ held_link self.old) × (held_turns self.new ≡ held_turns self.old) }
    {
        let next = self.link.next_read();
        match &mut self.hold {
            Some(hold) if hold.read == next => was_sent(&mut hold.other, hold.lines, self.turns),
            _ => true,
        }
    }
}

impl<C: LineCount> Link for HeldLink<C> {
    ghost use Rattle.std.specs.Prelude.{◌≡◌, ◌⊎◌, ◌<◌, IsErr, IfOk, length};
    ghost use Rattle.tac_io.specs.Calls.{IsNextToFail};
    ghost use Rattle.tac_io.specs.HeldLink.{IsNextHeld, Waits, held_hold, held_link, held_share, held_turns};
    ghost use Rattle.tac_io.specs.MemLink.{ReadsNext, WritesNext, link_reads, link_state};

    ghost state = { λ s. link_state (held_link s) };

    fn read(&mut self, into: &mut [u8]) -> Result<usize, Failed>
        requires { 0 < length into.old }
        // It fails only if the link fails, or if each of its looks saw fewer lines. A held-up read looks first, even if it then fails.
        ensures fails { IsErr result → Waits C.shows self.old (held_hold self.new) false ⊎ IsNextToFail (link_reads (held_link self.old)) }
        ensures failing { IsNextToFail (link_reads (held_link self.old)) → IsErr result }
        ensures waits { IsNextHeld self.old → Waits C.shows self.old (held_hold self.new) true ⊎ Waits C.shows self.old (held_hold self.new) false }
        ensures answers { IsNextHeld self.old → IfOk result (λ _. Waits C.shows self.old (held_hold self.new) true) }
        ensures share { IfOk result (λ n. n ≡ held_share self.old (length into.new)) }
        ensures next { ReadsNext (held_link self.old) (held_link self.new) result into.new }
        ensures free { ¬ IsNextHeld self.old → held_hold self.new ≡ held_hold self.old }
        ensures turns { held_turns self.new ≡ held_turns self.old }
    {
        if !self.answers() {
            return Err(self.link.fail_read());
        }
        let line = line_len(self.link.left()).clamp(1, into.len());
        let (into, _) = into.split_at_mut(line);
        self.link.read(into)
    }

    fn write(&mut self, piece: &[u8]) -> Result<usize, Failed>
        requires { 0 < length piece.now }
        ensures next { WritesNext (held_link self.old) (held_link self.new) result piece.now }
        ensures hold { (held_hold self.new ≡ held_hold self.old) × (held_turns self.new ≡ held_turns self.old) }
    {
        let count = self.link.write(piece)?;
        self.lines_sent
            .fetch_add(line_ends(&piece[..count]), Ordering::SeqCst);
        Ok(count)
    }

    fn faults(&self) -> u64 {
        self.link.faults()
    }

    fn write_faults(&self) -> u64 {
        self.link.write_faults()
    }
}
