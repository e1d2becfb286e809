// Compares the head of a log with its histories.
ghost use Rattle.std.specs.Prelude.{◌≡◌, ◌==◌, ℕ, ◌≤◌, ◌↔◌, map, Some, length, slice_get, IsTrue};
ghost use Rattle.std.specs.List.{list_any};
ghost use Rattle.log_audit.specs.Auditing.{KeepsEnds};
ghost use Rattle.log_text.specs.SoundLog.{seatings, logged_seats, HasNoEntry, IsService, IsSoundHead};

use crate::goods::good_of;
use line_protocol::{Cause, LogHead, Verdict};
use log_reader::{Log, LogHistory};
use tac_base::limits::{GOODS, LINKS, TICKS};
use tac_base::{Agent, Entry};

/// The number of links that were given the seat of an agent.
fn count_seats(verdicts: &[Verdict], agent: Agent) -> usize
    ensures { result ≡ seatings verdicts.now agent }
{
    verdicts
        .iter()
        .filter(|verdict| matches!(verdict, Verdict::Seated(seat) if *seat == agent))
        .count()
}

/// Whether no seat was given twice.
fn do_seats_differ(verdicts: &[Verdict]) -> bool
    ensures { IsTrue result ↔ ((agent : ℕ) → agent ≤ 7 → seatings verdicts.now agent ≤ 1) }
{
    for agent in Agent::all() {
        if count_seats(verdicts, agent) > 1 {
            return false;
        }
    }
    true
}

/// Whether the end at a place is the agent's.
fn is_end_of(ends: &[(Agent, Cause)], place: usize, agent: Agent) -> bool
    ensures { IsTrue result ↔ (slice_get (map (λ end. end.0) ends.now) place ≡ Some agent) }
{
    match ends.get(place) {
        Some((other, _)) => *other == agent,
        None => false,
    }
}

/// The number of ends due through an agent, if this many are due before it. None if it has a seat and the next end is not its own.
fn follow_end(
    verdicts: &[Verdict],
    ends: &[(Agent, Cause)],
    ended: usize,
    agent: Agent,
) -> Option<usize>
    requires { ended ≤ length ends.now }
    ensures { KeepsEnds (map (λ end. end.0) ends.now) ended agent (seatings verdicts.now agent) result }
{
    if count_seats(verdicts, agent) == 0 {
        return Some(ended);
    }
    if is_end_of(ends, ended, agent) {
        Some(ended + 1)
    } else {
        None
    }
}

/// Whether the ends are those of the seated agents, in rising order.
fn are_ends(verdicts: &[Verdict], ends: &[(Agent, Cause)]) -> bool
    ensures { IsTrue result ↔ (map (λ end. end.0) ends.now ≡ logged_seats verdicts.now) }
{
    let mut ended = 0;
    for agent in Agent::all() {
        match follow_end(verdicts, ends, ended, agent) {
            Some(next) => ended = next,
            None => return false,
        }
    }
    ended == ends.len()
}

/// Whether an agent has one of the entries.
fn has_entry(entries: &[Entry], agent: Agent) -> bool
    ensures { result ≡ list_any (λ e. e.caller == agent) entries.now }
{
    entries
        .iter()
        .any(|entry| entry.caller.get() == agent.get())
}

/// Whether an agent has an entry in a history.
fn is_in(history: &LogHistory, agent: Agent) -> bool
    ensures { result ≡ list_any (λ e. e.caller == agent) history.now }
{
    has_entry(&history.entries, agent)
}

/// Whether an agent has an entry in the cash history.
fn is_in_cash(log: &Log, agent: Agent) -> bool
    ensures { result ≡ list_any (λ e. e.caller == agent) log.now.cash }
{
    log.cash()
        .iter()
        .any(|entry| entry.caller.get() == agent.get())
}

/// Whether an agent has no entry at all.
fn is_absent(log: &Log, agent: Agent) -> bool
    ensures { IsTrue result ↔ HasNoEntry log.now agent }
{
    for number in 0..GOODS {
        if is_in(log.history(good_of(number)), agent) {
            return false;
        }
    }
    !is_in_cash(log, agent)
}

/// Whether no agent without a seat has an entry.
fn are_others_absent(log: &Log, verdicts: &[Verdict]) -> bool
    ensures { IsTrue result ↔ ((agent : ℕ) → agent ≤ 7 → seatings verdicts.now agent ≡ 0 → HasNoEntry log.now agent) }
{
    for agent in Agent::all() {
        if count_seats(verdicts, agent) == 0 && !is_absent(log, agent) {
            return false;
        }
    }
    true
}

/// Whether a served game can have these links, ends and missed ticks.
fn is_service(log: &Log, verdicts: &[Verdict], ends: &[(Agent, Cause)], missed: u8) -> bool
    ensures { IsTrue result ↔ IsService log.now verdicts.now ends.now missed }
{
    if verdicts.len() > LINKS as usize || missed > TICKS {
        return false;
    }
    if !do_seats_differ(verdicts) || !are_ends(verdicts, ends) {
        return false;
    }
    are_others_absent(log, verdicts)
}

/// Whether the head of a log agrees with its histories.
pub(crate) fn is_sound_head(log: &Log) -> bool
    ensures { IsTrue result ↔ IsSoundHead log.now log.now.head }
{
    match log.head() {
        LogHead::Play => true,
        LogHead::Serve {
            verdicts,
            ends,
            missed,
        } => is_service(log, verdicts, ends, *missed),
    }
}
