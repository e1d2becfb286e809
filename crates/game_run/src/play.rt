// Plays a game and closes it.
ghost use Rattle.std.specs.Prelude.{◌≡◌, [], ℕ, Some, true, IfOk, IfSome, slice_get, vec_len};
ghost use Rattle.game_run.specs.{IsPlayedThrough};
ghost use Rattle.game_run.specs.Prelude.{goes_on, last_of, Lines, WaitsForAll};
ghost use Rattle.game_run.specs.GameSessions.{IsReadyForEnds, IsOpenFloor};

use crate::seating::agent_seats;
use crate::session_ends::SessionEnds;
use crate::sessions::run_all;
use agent_gate::Dialect;
use auction_core::Closed;
use clock_events::ClockEnd;
use floor::{Desk, Floor};
use game_text::Game;
use line_protocol::Cause;
use std::alloc::Global;
use std::sync::Wait;
use std::thread::Threads;
use std::time::Clock;
use tac_base::limits::AGENTS;
use tac_base::{Agent, Memory};
use tac_io::{Lines, Link, Ticker};

/// A floor with its nine desks, and memory for the ends of the sessions.
#[derive(Drop)]
pub(crate) struct OpenFloor<L> {
    pub(crate) floor: Floor,
    pub(crate) desks: Vec<Desk>,
    pub(crate) session_ends: SessionEnds<L>,
}

/// A game that is over, and the links of the agents that have one.
#[derive(Drop)]
pub(crate) struct Finished<L> {
    pub(crate) closed: Closed,
    pub(crate) ends: Vec<(Agent, Cause)>,
    pub(crate) links: Vec<Option<L>>,
    pub(crate) missed: u8,
}

// Reserves memory for the ends of the sessions.
fn reserve_ends<L: Drop>(alloc: Global) -> Result<SessionEnds<L>, Memory>
    ensures { IfOk result IsReadyForEnds }
{
    Ok(SessionEnds {
        desks: Vec::with_capacity(alloc, 9)?,
        ends: Vec::with_capacity(alloc, 8)?,
        links: Vec::with_capacity(alloc, 8)?,
    })
}

/// Allocates the memory of a game and of the ends of its sessions.
pub(crate) fn begin_floor<L: Drop>(alloc: Global, game: &Game) -> Result<OpenFloor<L>, Memory>
    ensures { IfOk result (IsOpenFloor game.now) }
{
    let (floor, desks) = Floor::begin(alloc, game)?;
    Ok(OpenFloor {
        floor,
        desks,
        session_ends: reserve_ends(alloc)?,
    })
}

/// Plays a game in which the agents with lines have sessions, and closes it.
pub(crate) fn play_out<
    R: Threads + Sync + Wait + Clock,
    D: Dialect + Sync,
    L: Link + Send + Drop,
    T: Ticker + Send,
>(
    rt: &R,
    game: &Game,
    dialect: &D,
    open_floor: OpenFloor<L>,
    lines: Vec<Option<Lines<L>>>,
    ticker: &mut T,
) -> Finished<L>
    requires open_floor { IsOpenFloor game.now open_floor }
    requires wide { vec_len lines ≡ AGENTS }
    requires readable { (agent : ℕ) (ls : Lines _) → slice_get lines.items agent ≡ Some (Some ls) → goes_on (last_of ls) ≡ true }
    requires ticks { IfSome (T.state ticker.old).waited (λ waits. waits ≡ []) }
    ensures through { IsPlayedThrough L.state (D.form dialect.now) game.now result.closed lines.items result.links.items result.ends.items }
    ensures waits { WaitsForAll (T.state ticker.old) (T.state ticker.new) result.missed }
{
    let OpenFloor {
        floor,
        mut desks,
        mut session_ends,
    } = open_floor;
    let clock = desks.pop().unwrap();
    let agent_seats = agent_seats(desks, lines);
    let (played, clock) = run_all(rt, &floor, game, dialect, agent_seats, clock, ticker);
    session_ends.add_eight(played);
    let ClockEnd { desk, missed } = clock;
    let SessionEnds {
        mut desks,
        ends,
        links,
    } = session_ends;
    desks.push_reserved(desk);
    Finished {
        closed: floor.close(desks),
        ends,
        links,
        missed,
    }
}
