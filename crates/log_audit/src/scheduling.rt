// Compares the clock's calls in a log with the game's schedule.
ghost use Rattle.std.specs.Prelude.{◌≡◌, ◌↔◌, ◌++◌, [], ◌∷◌, ℕ, ◌≤◌, Some, length, take, slice_get, IfOk, OnOk, OnErr, IsTrue};
ghost use Rattle.log_audit.specs.{calls_at, clock_calls, clock_calls_in, logged_history, IsOnSchedule, KeepsSchedule, IsLowestBelow, calls_for};

use crate::goods::{good_of, tick_after};
use clock_events::{schedule, schedule_law};
use game_text::Game;
use log_reader::{Log, LogHistory};
use std::alloc::{AllocError, Global};
use tac_base::limits::{GOODS, TICKS};
use tac_base::{Call, Caller, Entry, Good, Memory, Tick, same_call};

/// Adds a call, if it is at the good. After an error it was not added.
#[tactic(auto, using(crate::proofs::Scheduled::for_own, crate::proofs::Scheduled::for_other))]
fn push_for(calls: &mut Vec<Call>, good: Good, next: (Good, Call)) -> Result<(), AllocError>
    ensures added { OnOk result (calls.new.items ≡ calls.old.items ++ calls_for good (next ∷ [])) }
    ensures kept { OnErr result (calls.new.items ≡ calls.old.items) }
{
    let (other, call) = next;
    if other != good {
        return Ok(());
    }
    calls.push(call)?;
    Ok(())
}

/// Adds the calls that the clock makes at a good at a tick. After an error the first of them may have been added.
fn push_tick(calls: &mut Vec<Call>, game: &Game, good: Good, tick: Tick) -> Result<(), AllocError>
    ensures added { OnOk result (calls.new.items ≡ calls.old.items ++ calls_for good (calls_at game.now tick)) }
    ensures first { OnErr result ((n : ℕ) × (calls.new.items ≡ calls.old.items ++ calls_for good (take n (calls_at game.now tick)))) }
{
    // A law of the schedule, which uses the tick's range, says that a tick has few calls.
    let _number = tick.get();
    schedule_law(game);
    let mut n = 0;
    while let Some(next) = schedule(game, tick, n) {
        push_for(calls, good, next)?;
        n += 1;
    }
    Ok(())
}

/// The calls that the clock makes at a good, in order.
fn due_calls(alloc: Global, game: &Game, good: Good) -> Result<Vec<Call>, AllocError>
    ensures { IfOk result (λ calls. calls.items ≡ clock_calls game.now good) }
{
    let mut calls = Vec::new(alloc);
    for number in 0..TICKS {
        push_tick(&mut calls, game, good, tick_after(number))?;
    }
    Ok(calls)
}

/// Whether a call is the due call at this place.
fn is_next(due: &[Call], place: usize, call: &Call) -> bool
    ensures { IsTrue result ↔ (slice_get due.now place ≡ Some call.now) }
{
    match due.get(place) {
        Some(next) => same_call(next, call),
        None => false,
    }
}

/// The number of due calls made after an entry, if this many were made before it. None if the clock made the entry and it is not the next call.
fn follow(due: &[Call], made: usize, entry: &Entry) -> Option<usize>
    requires { made ≤ length due.now }
    ensures { KeepsSchedule due.now made entry.now.caller entry.now.call result }
{
    if entry.caller != Caller::clock() {
        return Some(made);
    }
    if is_next(due, made, &entry.call) {
        Some(made + 1)
    } else {
        None
    }
}

/// Whether the clock's calls in a history are these.
fn makes(history: &LogHistory, due: &[Call]) -> bool
    ensures { IsTrue result ↔ (clock_calls_in history.now ≡ due.now) }
{
    let mut made = 0;
    for position in 0..history.len() {
        match follow(due, made, history.entry(position).unwrap()) {
            Some(next) => made = next,
            None => return false,
        }
    }
    made == due.len()
}

/// The lowest good at which the clock's calls are not those of the schedule, if any.
pub(crate) fn off_schedule(alloc: Global, game: &Game, log: &Log) -> Result<Option<Good>, Memory>
    ensures { IfOk result (IsLowestBelow 28 (λ good. IsOnSchedule game.now good (logged_history log.now good))) }
{
    for number in 0..GOODS {
        let good = good_of(number);
        let due = due_calls(alloc, game, good)?;
        if !makes(log.history(good), &due) {
            return Ok(Some(good));
        }
    }
    Ok(None)
}
