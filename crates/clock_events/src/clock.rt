// Runs the clock of a game over a ticker.
ghost use Rattle.std.specs.Prelude.{◌≡◌, ◌<◌, [], ◌∷◌, ◌++◌, ◌-◌, ℕ, length, map, replicate, IfSome, MatchBool};
ghost use Rattle.tac_base.specs.Goods.{clock};
ghost use Rattle.clock_events.specs.{IsSameDesk, boards_of, desk_calls, desk_cash, desk_caller, desk_ids, entries_at, desk_entries, desk_steps, floor_ids, Rose, known_then, clock_calls, HasMade, MakesCalls};
ghost use Rattle.clock_events.specs.Clocking.{WaitsForAll};
ghost use Rattle.clock_events.specs.Steps.{steps_at, steps_over};
ghost use Rattle.game_text.specs.Schedule as spec;

use crate::{schedule, schedule_law};
use floor::{Desk, Floor};
use game_text::Game;
use std::sync::Wait;
use std::time::Clock;
use tac_base::Tick;
use tac_base::limits::{GOODS, TICKS};
use tac_io::Ticker;

/// What `run_clock` returns at the end of a game.
#[derive(Drop)]
pub struct ClockEnd {
    /// The clock's desk, which made its calls.
    pub desk: Desk,
    /// The number of ticks, of 54, that lapsed.
    pub missed: u8,
}

/// Records the due of a tick, which shows the wait for it, and then makes the clock's calls of the tick in the schedule's order, and no other
/// call. It may wait for turns.
pub fn clock_tick<R: Wait + Clock, T: Ticker>(
    rt: &R,
    floor: &Floor,
    desk: &mut Desk,
    game: &Game,
    tick: Tick,
    due: T::Due,
)
    requires due { T.due_tick due ≡ tick }
    requires own { desk_ids desk.old ≡ floor_ids floor.now }
    requires clock { desk_caller desk.old ≡ clock }
    requires before { HasMade game.now (tick - 1) desk.old }
    ensures steps { desk_steps desk.new ≡ desk_steps desk.old ++ steps_at T.mark game.now tick }
    ensures calls { desk_calls desk.new ≡ desk_calls desk.old ++ spec.calls_at game.now tick }
    ensures made { HasMade game.now tick desk.new }
    ensures turns { MakesCalls (spec.calls_at game.now tick) desk.old desk.new }
    ensures boards { boards_of desk.new ≡ boards_of desk.old }
    ensures same { IsSameDesk desk.old desk.new }
{
    desk.take_due::<T>(tick, due);
    // The requirements of the calls follow from the tick's range and the laws of the schedule.
    let _number = tick.get();
    schedule_law(game);
    let mut n = 0;
    while let Some((good, call)) = &schedule(game, tick, n) {
        desk.clock_call(rt, floor, *good, call);
        n += 1;
    }
}

/// Waits for a tick, and says whether it lapsed. A lapse is taken as due.
fn wait_for<R: Wait + Clock, T: Ticker>(rt: &R, ticker: &mut T, tick: Tick) -> (T::Due, bool)
    requires { IfSome (T.state ticker.old).waited (λ waits. length waits < TICKS) }
    ensures due { T.due_tick result.0 ≡ tick }
    ensures waited { (T.state ticker.new).waited ≡ known_then (T.state ticker.old).waited (record { tick = tick; lapsed = result.1; paced = (T.state ticker.old).paced } ∷ []) }
    ensures paced { (T.state ticker.new).paced ≡ (T.state ticker.old).paced }
    ensures cause { MatchBool result.1 (Rose (T.state ticker.old).faults (T.state ticker.new).faults) ((T.state ticker.new).faults ≡ (T.state ticker.old).faults) }
{
    match ticker.wait(rt, tick) {
        Ok(due) => (due, false),
        Err(lapse) => (ticker.late(lapse), true),
    }
}

/// Waits for each of the 54 ticks in turn and makes its calls: in all, the whole schedule of the game, in order across the goods, and no
/// other call. It records the due of each tick before it makes the tick's calls, and then waits for the next tick. After a lapse it makes
/// the tick's calls at once, and waits again for the next tick. It allocates no memory.
pub fn run_clock<R: Wait + Clock, T: Ticker>(
    rt: &R,
    floor: &Floor,
    mut desk: Desk,
    game: &Game,
    ticker: &mut T,
) -> ClockEnd
    requires own { desk_ids desk ≡ floor_ids floor.now }
    requires clock { desk_caller desk ≡ clock }
    requires no_calls { (desk_entries desk ≡ replicate GOODS []) × (desk_cash desk ≡ []) }
    requires ticks { IfSome (T.state ticker.old).waited (λ waits. waits ≡ []) }
    ensures calls { desk_calls result.desk ≡ spec.schedule game.now }
    ensures made { HasMade game.now TICKS result.desk }
    ensures whole { (good : ℕ) → good < GOODS → map (λ p. p.1.call) (entries_at result.desk good) ≡ clock_calls game.now good }
    ensures steps { (all : WaitsForAll (T.state ticker.old) (T.state ticker.new) result.missed)
        × (desk_steps result.desk ≡ desk_steps desk ++ steps_over T.mark game.now (T.state ticker.old).waited all.waits) }
    ensures turns { MakesCalls (spec.schedule game.now) desk result.desk }
    ensures boards { boards_of result.desk ≡ boards_of desk }
    ensures same { IsSameDesk desk result.desk }
    ensures waits { WaitsForAll (T.state ticker.old) (T.state ticker.new) result.missed }
{
    let mut missed = 0;
    for number in 1..TICKS + 1 {
        let tick = Tick::new(number).unwrap();
        let (due, lapsed) = wait_for(rt, ticker, tick);
        clock_tick::<R, T>(rt, floor, &mut desk, game, tick, due);
        desk.note_waits(&*ticker);
        missed += u8::from(lapsed);
    }
    ClockEnd { desk, missed }
}
