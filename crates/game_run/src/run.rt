// Runs a game over links.
ghost use Rattle.std.specs.Prelude.{◌≡◌, ◌≤◌, [], None, IfOk, IfErr, IfSome, map, replicate, vec_capacity, vec_len, option_map};
ghost use Rattle.game_run.specs.{AreFilled, AreLinksOf, IsReadyForArrivals, IsReserved, hosted_game, IsGameEnd, IsRunFault, missed_of};
ghost use Rattle.game_run.specs.Prelude.{link_of, WaitsForAll, head_of};

use crate::admission::admit;
use crate::arrivals::Arrivals;
use crate::play::{Finished, OpenFloor, begin_floor, play_out};
use crate::session_ends::{SessionEnds, in_order, without_sessions};
use agent_gate::Dialect;
use auction_core::Closed;
use game_text::Game;
use line_protocol::LogHead;
use std::alloc::Global;
use std::sync::Wait;
use std::thread::Threads;
use std::time::Clock;
use tac_base::Memory;
use tac_base::limits::{AGENTS, LINKS};
use tac_io::{Lines, Link, Links, Ticker};

/// A game that was played.
#[derive(Drop)]
pub struct GameEnd<L> {
    pub closed: Closed,
    pub head: LogHead,
    /// The links that were taken, in the order in which they came.
    pub links: Vec<L>,
}

/// Why no game was played.
#[derive(Drop)]
pub enum RunFault<L> {
    /// The links failed. These were taken, in the order in which they came.
    Links(Vec<L>),
    /// A memory allocation failed. The links were not touched.
    Memory,
}

// All memory of a game, reserved before the game listens.
#[derive(Drop)]
pub(crate) struct Reserved<L> {
    pub(crate) open_floor: OpenFloor<L>,
    pub(crate) arrivals: Arrivals<L>,
    /// Memory for the links at the end.
    pub(crate) links: Vec<L>,
}

// Returns a list in which no agent has lines.
fn no_lines<L: Drop>(alloc: Global) -> Result<Vec<Option<Lines<L>>>, Memory>
    ensures { IfOk result (λ lines. lines.items ≡ replicate AGENTS None) }
{
    let mut lines = Vec::with_capacity(alloc, usize::from(AGENTS))?;
    for _ in 0..AGENTS {
        lines.push_reserved(None);
    }
    Ok(lines)
}

// Reserves memory for the links that will come.
fn reserve_arrivals<L: Drop>(alloc: Global) -> Result<Arrivals<L>, Memory>
    ensures { IfOk result IsReadyForArrivals }
{
    let verdicts = Vec::with_capacity(alloc, LINKS as usize)?;
    let holders = Vec::with_capacity(alloc, LINKS as usize)?;
    let lines = no_lines(alloc)?;
    Ok(Arrivals {
        verdicts,
        holders,
        lines,
    })
}

// Reserves all memory of a game.
fn reserve<L: Drop>(alloc: Global, game: &Game) -> Result<Reserved<L>, Memory>
    ensures { IfOk result (IsReserved game.now) }
{
    let open_floor = begin_floor(alloc, game)?;
    let arrivals = reserve_arrivals(alloc)?;
    let links = Vec::with_capacity(alloc, LINKS as usize)?;
    Ok(Reserved {
        open_floor,
        arrivals,
        links,
    })
}

// Returns the links that were taken, none of which played.
fn leave<L: Link + Drop>(arrivals: Arrivals<L>, open_floor: OpenFloor<L>, given: Vec<L>) -> Vec<L>
    requires filled { AreFilled arrivals.lines.items arrivals.holders.items }
    requires wide { vec_len arrivals.lines ≡ AGENTS }
    requires agent_seats { (open_floor.session_ends.links.items ≡ []) × (vec_capacity open_floor.session_ends.links ≡ AGENTS) }
    requires room { (given.items ≡ []) × (vec_len arrivals.holders ≤ vec_capacity given) }
    ensures { AreLinksOf (map (option_map link_of) arrivals.lines.items) arrivals.holders.items result.items }
{
    let Arrivals {
        verdicts: _,
        holders,
        lines,
    } = arrivals;
    let OpenFloor {
        floor: _,
        desks: _,
        session_ends,
    } = open_floor;
    let SessionEnds {
        desks: _,
        ends: _,
        links,
    } = session_ends;
    let agent_seats = without_sessions(lines, links);
    in_order(holders, agent_seats, given)
}

/// Plays a game over links. First it reserves all the memory of the game. Then it listens on the port, takes links and reads a line from
/// each, until eight agents have a seat, 64 links were taken or none is left. It sends a link without a seat its refusal. The sessions of the
/// seated links and the clock run concurrently. It waits for peers and for ticks. The dialect gives the forms of lines. This project
/// defines which link gets which seat.
pub fn run_game<R: Threads + Sync + Wait + Clock, D: Dialect + Sync, N: Links, T: Ticker + Send>(
    rt: &R,
    alloc: Global,
    game: &Game,
    port: u16,
    dialect: &D,
    links: &mut N,
    ticker: &mut T,
) -> Result<GameEnd<N::Link>, RunFault<N::Link>>
    requires ports { IfSome (N.state links.old).ports (λ ports. ports ≡ []) }
    requires ticks { IfSome (T.state ticker.old).waited (λ waits. waits ≡ []) }
    ensures played { IfOk result (IsGameEnd N.Link.state (hosted_game game.now (D.form dialect.now) port)
        (N.state links.old) (N.state links.new)) }
    ensures waits { IfOk result (λ end. WaitsForAll (T.state ticker.old) (T.state ticker.new) (missed_of (head_of end.head))) }
    ensures not_played { IfErr result (IsRunFault N.Link.state (hosted_game game.now (D.form dialect.now) port)
        (N.state links.old) (N.state links.new)) }
    ensures untouched { IfErr result (λ _. ticker.new ≡ ticker.old) }
{
    let Ok(reserved) = reserve(alloc, game) else {
        return Err(RunFault::Memory);
    };
    let Reserved {
        open_floor,
        mut arrivals,
        links: given,
    } = reserved;
    if admit(game, port, links, &mut arrivals).is_err() {
        return Err(RunFault::Links(leave(arrivals, open_floor, given)));
    }
    let Arrivals {
        verdicts,
        holders,
        lines,
    } = arrivals;
    let Finished {
        closed,
        ends,
        links: agent_seats,
        missed,
    } = play_out(rt, game, dialect, open_floor, lines, ticker);
    Ok(GameEnd {
        closed,
        head: LogHead::Serve {
            verdicts,
            ends,
            missed,
        },
        links: in_order(holders, agent_seats, given),
    })
}
