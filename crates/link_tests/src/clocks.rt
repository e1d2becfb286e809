// The clock over a ticker.
ghost use Rattle.std.specs.Prelude.{◌≡◌, [], IfOk, replicate};
ghost use Rattle.floor.specs.Desks.{desk_cash, desk_caller, desk_ids, desk_entries};
ghost use Rattle.floor.specs.Floors.{floor_ids};

use clock_events::{run_clock, schedule};
use floor::{Desk, Floor};
use game_text::Game;
use std::alloc::Global;
use std::test::Fail;
use tac_base::{Call, Good, Tick};
use tac_io::{Look, LookingTicker, Ticker};

/// A floor of a game, with the desks of an agent and of the clock.
fn begin_two(alloc: Global, game: &Game) -> Result<(Floor, Desk, Desk), Fail>
    ensures agent { IfOk result (λ r. desk_ids r.1 ≡ floor_ids r.0) }
    ensures clock { IfOk result (λ r. (desk_ids r.2 ≡ floor_ids r.0) × (desk_caller r.2 ≡ 8)) }
    ensures no_calls { IfOk result (λ r. (desk_entries r.2 ≡ replicate 28 []) × (desk_cash r.2 ≡ [])) }
{
    let (floor, mut desks) = Floor::begin(alloc, game)?;
    let clock = desks.pop().ok_or("there are nine desks")?;
    let agent = desks.pop().ok_or("there are nine desks")?;
    Ok((floor, agent, clock))
}

/// Watches the game: a tick is due once the first flight has an entry for each tick before it.
#[derive(Drop)]
struct FlightLook<'a> {
    floor: &'a Floor,
    desk: Desk,
    ghost own: { desk_ids desk ≡ floor_ids floor.now },
}

impl Look for FlightLook<'_> {
    fn is_due(&mut self, _pace: Option<u16>, tick: Tick) -> bool {
        let board = self.desk.quote(self.floor, Good::default());
        board.count == u32::from(tick.get() - 1)
    }
}

/// A tick and the number of a call, from 0; the good and the word of the call, `none` past the last.
const DUE: &[(u8, u8, u8, &str)] = &[
    (1, 0, 0, "update"),
    (1, 8, 0, "none"),
    (6, 8, 8, "close"),
    (6, 9, 9, "publish"),
    (6, 15, 15, "publish"),
    (6, 16, 0, "none"),
    (48, 8, 15, "close"),
    (48, 9, 0, "none"),
    (54, 8, 16, "close"),
    (54, 19, 27, "close"),
    (54, 20, 0, "none"),
];

/// The word of a call at a tick of the quiet game, in which each draw is 10.
fn word_of(call: &Call, number: u8) -> &'static str {
    match call {
        Call::Update { tick, draw } if tick.get() == number && *draw == 10 => "update",
        Call::Publish => "publish",
        Call::Close => "close",
        _ => "another",
    }
}

/// Whether this call is due.
fn is_due(game: &Game, tick: Tick, n: u8, good: u8, word: &str) -> bool {
    match schedule(game, tick, n) {
        Some((at, call)) => at.get() == good && word_of(&call, tick.get()) == word,
        None => word == "none",
    }
}

#[test]
fn clock_waits_tick_by_tick_and_makes_the_calls_of_the_schedule(
    rt: HostRuntime,
) -> Result<(), Fail> {
    let game = Game::default();
    for (tick, n, good, word) in DUE {
        assert!(rt; is_due(&game, Tick::new(*tick)?, *n, *good, word));
    }
    let (floor, agent, clock) = begin_two(rt.alloc(), &game)?;
    let mut ticker = LookingTicker::new(FlightLook {
        floor: &floor,
        desk: agent,
    });
    let end = run_clock(&rt, &floor, clock, &game, &mut ticker);
    assert!(rt; end.missed == 0);
    assert!(rt; ticker.faults() == 0);
    Ok(())
}
