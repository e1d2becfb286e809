ghost use Rattle.std.specs.Prelude.{◌≡◌, ◌+◌, ◌≤◌, ◌<◌, ◌==◌, ◌∷◌, [], slice_get, length, map};
ghost use Rattle.std.specs.List.{list_any};
ghost use Rattle.tac_base.specs.declared.calls.Call.TheVariants.{Close};
ghost use Rattle.game_text.specs.Schedule as spec;

use arrayvec::ArrayVec;
use game_text::Game;
use tac_base::limits::TICKS;
use tac_base::{Call, Good, Tick};

/// Returns the good with this number.
fn good(number: u8) -> Good
    requires { number ≤ 27 }
    ensures { result ≡ number }
{
    Good::new(number).unwrap()
}

/// Whether the good is one of these goods.
fn is_among(goods: &[Good], good: Good) -> bool
    ensures { result ≡ list_any (λ other. other == good) goods.now }
{
    goods.iter().any(|other| *other == good)
}

/// Returns the hotel nights that are open after this many closings.
#[tactic(auto, unfolding(game_text::specs::Schedule::open_after))]
fn open_after(order: &[Good], turn: usize) -> ArrayVec<Good, 8>
    requires turn { turn ≤ 8 }
    requires count { length order.now ≡ 8 }
    ensures { result.items ≡ spec.open_after order.now turn }
{
    let closed = &order[..turn];
    let mut open = ArrayVec::from(Good::hotels());
    open.retain(|good| !is_among(closed, *good));
    open
}

/// Returns the n-th call of the hotels at their tick: a closing, and then the publications.
#[tactic(auto, using(crate::proofs::CallLists::publication_at))]
fn hotel_call(order: &[Good], turn: usize, n: usize) -> Option<(Good, Call)>
    requires first { 1 ≤ turn }
    requires last { turn ≤ 8 }
    requires count { length order.now ≡ 8 }
    ensures { result ≡ slice_get (spec.hotel_calls order.now turn) n }
{
    if n == 0 {
        return Some((order[turn - 1], Call::Close));
    }
    let open = open_after(order, turn);
    let good = open.as_slice().get(n - 1)?;
    Some((*good, Call::Publish))
}

/// Returns the n-th call of the last tick.
fn last_call(n: usize) -> Option<(Good, Call)>
    ensures { result ≡ slice_get (map (λ good. (good, Close)) spec.closed_last) n }
{
    if n < 8 {
        Some((good(n as u8), Call::Close))
    } else if n < 20 {
        Some((good(n as u8 + 8), Call::Close))
    } else {
        None
    }
}

/// Returns the n-th call of the clock at a tick, counted from 0, and its good. It returns None exactly past the tick's last call.
/// Ticks 1..53 update the flights. Each sixth of them closes the next hotel night and publishes the open ones. Tick 54 closes
/// flights and tickets. This project defines the ticks.
#[tactic(auto, using(crate::proofs::CallLists::last_calls, crate::proofs::CallLists::flight_call, crate::proofs::CallLists::hotel_call_at, crate::proofs::CallLists::no_call,))]
pub fn schedule(game: &Game, tick: Tick, n: u8) -> Option<(Good, Call)>
    ensures { result ≡ slice_get (spec.calls_at game.now tick) n }
{
    let n = usize::from(n);
    let number = tick.get();
    if number == TICKS {
        return last_call(n);
    }
    if n < 8 {
        let flight = &game.flights[n];
        let draw = flight.draws[usize::from(number) - 1];
        return Some((good(n as u8), Call::Update { tick, draw }));
    }
    if number % 6 == 0 {
        hotel_call(&game.order, usize::from(number / 6), n - 8)
    } else {
        None
    }
}
