ghost use Rattle.std.specs.Prelude.{◌≡◌, ◌≤◌, ℕ, length, All};
ghost use Rattle.game_text.specs.Schedule as spec;
ghost use Rattle.clock_events.specs.Laws as laws;
ghost use Rattle.tac_base.specs.declared.limits.TheConstants.{CLOCK_CASH_ENTRIES, TICKS};

use game_text::Game;

/// The laws of the schedule of a game, as this call's contract. At each tick, 1 to 54, the clock has at most 20 calls, at
/// most one of each good, and each suits the good's kind of auction. A whole game has 480 calls, at most 54 of one good.
pub fn schedule_law(game: &Game)
    ensures once { (tick good : ℕ) → 1 ≤ tick → tick ≤ TICKS → laws.tick_calls_of game.now tick good ≤ 1 }
    ensures fit { (tick : ℕ) → 1 ≤ tick → tick ≤ TICKS → All (laws.IsDueCall tick) (spec.calls_at game.now tick) }
    ensures few { (tick : ℕ) → 1 ≤ tick → tick ≤ TICKS → length (spec.calls_at game.now tick) ≤ 20 }
    ensures whole { length (spec.schedule game.now) ≡ CLOCK_CASH_ENTRIES }
    ensures most { (good : ℕ) → length (spec.clock_calls game.now good) ≤ TICKS }
{
    let _order = &game.order;
}
