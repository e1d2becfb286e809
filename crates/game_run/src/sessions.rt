// Runs the sessions and the clock concurrently.
ghost use Rattle.std.specs.Prelude.{◌≡◌, IsSomeAnd, IfSome, Some, []};
ghost use Rattle.game_run.specs.{AreBoth, AreEightPlayed, AreEightReady, IsPlayedSeat, IsReadySeat, IsReadyClock};
ghost use Rattle.game_run.specs.Prelude.{IsSameDesk, floor_ids, schedule, WaitsForAll, MakesCalls};
ghost use Rattle.game_run.specs.Seatings.{AreTakenPlayed, BothOver};

use agent_gate::{Dialect, SessionEnd, run_session};
use clock_events::{ClockEnd, run_clock};
use floor::{Desk, Floor};
use game_text::Game;
use line_protocol::Cause;
use std::sync::Wait;
use std::thread::{Threads, join, join_mut};
use std::time::Clock;
use tac_io::{Lines, Link, Ticker};

/// An agent's seat: its desk, and the lines of its link, if one has it.
#[derive(Drop)]
pub(crate) struct AgentSeat<L> {
    pub(crate) desk: Desk,
    pub(crate) lines: Option<Lines<L>>,
}

/// An agent's seat after the game.
#[derive(Drop)]
pub(crate) struct PlayedSeat<L> {
    pub(crate) desk: Desk,
    pub(crate) end: Option<(L, Cause)>,
}

/// Two values in order.
#[derive(Drop)]
pub(crate) struct Two<X> {
    pub(crate) first: X,
    pub(crate) second: X,
}

pub(crate) type Four<X> = Two<Two<X>>;

pub(crate) type Eight<X> = Two<Four<X>>;

// Runs the session at a seat, if a link has the seat.
fn run_seat<R: Wait + Clock, D: Dialect, L: Link>(
    rt: &R,
    floor: &Floor,
    game: &Game,
    dialect: &D,
    agent_seat: AgentSeat<L>,
) -> PlayedSeat<L>
    requires ready { IsReadySeat (floor_ids floor.now) agent_seat }
    ensures { IsPlayedSeat L.state (D.form dialect.now) game.now agent_seat result }
{
    let AgentSeat { desk, lines } = agent_seat;
    match lines {
        Some(lines) => {
            let SessionEnd {
                desk,
                link,
                lines: _,
                cause,
            } = run_session(rt, floor, game, dialect, desk, lines);
            PlayedSeat {
                desk,
                end: Some((link, cause)),
            }
        }
        None => PlayedSeat { desk, end: None },
    }
}

// Runs two seats concurrently.
fn run_two<R: Threads + Sync + Wait + Clock, D: Dialect + Sync, L: Link + Send + Drop>(
    rt: &R,
    floor: &Floor,
    game: &Game,
    dialect: &D,
    agent_seats: Two<AgentSeat<L>>,
) -> Two<PlayedSeat<L>>
    requires ready { AreBoth (IsReadySeat (floor_ids floor.now)) agent_seats }
    ensures { BothOver (IsPlayedSeat L.state (D.form dialect.now) game.now) agent_seats result }
{
    let Two { first, second } = agent_seats;
    let (first, second) = join(
        rt,
        || run_seat(rt, floor, game, dialect, first),
        || run_seat(rt, floor, game, dialect, second),
    );
    Two { first, second }
}

// Runs four seats concurrently.
fn run_four<R: Threads + Sync + Wait + Clock, D: Dialect + Sync, L: Link + Send + Drop>(
    rt: &R,
    floor: &Floor,
    game: &Game,
    dialect: &D,
    agent_seats: Four<AgentSeat<L>>,
) -> Four<PlayedSeat<L>>
    requires ready { AreBoth (AreBoth (IsReadySeat (floor_ids floor.now))) agent_seats }
    ensures { BothOver (BothOver (IsPlayedSeat L.state (D.form dialect.now) game.now)) agent_seats result }
{
    let Two { first, second } = agent_seats;
    let (first, second) = join(
        rt,
        ||
            requires { AreBoth (IsReadySeat (floor_ids floor.now)) first }
        { run_two(rt, floor, game, dialect, first) },
        ||
            requires { AreBoth (IsReadySeat (floor_ids floor.now)) second }
        { run_two(rt, floor, game, dialect, second) },
    );
    Two { first, second }
}

// Runs eight seats concurrently.
fn run_eight<R: Threads + Sync + Wait + Clock, D: Dialect + Sync, L: Link + Send + Drop>(
    rt: &R,
    floor: &Floor,
    game: &Game,
    dialect: &D,
    agent_seats: Eight<AgentSeat<L>>,
) -> Eight<PlayedSeat<L>>
    requires ready { AreEightReady (floor_ids floor.now) agent_seats }
    ensures { AreEightPlayed L.state (D.form dialect.now) game.now agent_seats result }
{
    let Two { first, second } = agent_seats;
    let (first, second) = join(
        rt,
        ||
            requires { AreBoth (AreBoth (IsReadySeat (floor_ids floor.now))) first }
        { run_four(rt, floor, game, dialect, first) },
        ||
            requires { AreBoth (AreBoth (IsReadySeat (floor_ids floor.now))) second }
        { run_four(rt, floor, game, dialect, second) },
    );
    Two { first, second }
}

// Takes the seats, and runs their sessions.
fn run_taken<R: Threads + Sync + Wait + Clock, D: Dialect + Sync, L: Link + Send + Drop>(
    rt: &R,
    floor: &Floor,
    game: &Game,
    dialect: &D,
    agent_seats: &mut Option<Eight<AgentSeat<L>>>,
) -> Eight<PlayedSeat<L>>
    requires ready { IsSomeAnd agent_seats.old (λ p. AreEightReady (floor_ids floor.now) p) }
    ensures { AreTakenPlayed L.state (D.form dialect.now) game.now agent_seats.old result }
{
    run_eight(rt, floor, game, dialect, agent_seats.take().unwrap())
}

// Runs the clock, whose desk has made no call.
fn run_ready_clock<R: Wait + Clock, T: Ticker>(
    rt: &R,
    floor: &Floor,
    game: &Game,
    desk: Desk,
    ticker: &mut T,
) -> ClockEnd
    requires ready { IsReadyClock (floor_ids floor.now) desk }
    requires ticks { IfSome (T.state ticker.old).waited (λ waits. waits ≡ []) }
    ensures made { MakesCalls (schedule game.now) desk result.desk }
    ensures same { IsSameDesk desk result.desk }
    ensures waits { WaitsForAll (T.state ticker.old) (T.state ticker.new) result.missed }
{
    run_clock(rt, floor, desk, game, ticker)
}

// Drops a value here, before the end of its scope.
fn let_go<X: Drop>(_value: X) {}

/// Runs the sessions of all seats and the clock concurrently.
pub(crate) fn run_all<
    R: Threads + Sync + Wait + Clock,
    D: Dialect + Sync,
    L: Link + Send + Drop,
    T: Ticker + Send,
>(
    rt: &R,
    floor: &Floor,
    game: &Game,
    dialect: &D,
    agent_seats: Eight<AgentSeat<L>>,
    clock: Desk,
    ticker: &mut T,
) -> (Eight<PlayedSeat<L>>, ClockEnd)
    requires ready { AreEightReady (floor_ids floor.now) agent_seats }
    requires clock { IsReadyClock (floor_ids floor.now) clock }
    requires ticks { IfSome (T.state ticker.old).waited (λ waits. waits ≡ []) }
    ensures played { AreTakenPlayed L.state (D.form dialect.now) game.now (Some agent_seats) result.0 }
    ensures made { MakesCalls (schedule game.now) clock result.1.desk }
    ensures same { IsSameDesk clock result.1.desk }
    ensures waits { WaitsForAll (T.state ticker.old) (T.state ticker.new) result.1.missed }
{
    let mut agent_seats = Some(agent_seats);
    let mut clock = Some(clock);
    let ends = join_mut(
        rt,
        &mut || -> Eight<PlayedSeat<L>>
            requires { IsSomeAnd agent_seats (λ p. AreEightReady (floor_ids floor.now) p) }
            ensures { AreTakenPlayed L.state (D.form dialect.entry.now) game.entry.now agent_seats.entry result }
        { run_taken(rt, floor, game, dialect, &mut agent_seats) },
        &mut ||
            requires { IsSomeAnd clock (λ d. IsReadyClock (floor_ids floor.now) d) × IfSome (T.state ticker.now).waited (λ waits. waits ≡ []) }
        { run_ready_clock(rt, floor, game, clock.take().unwrap(), ticker) },
    );
    let_go(agent_seats);
    let_go(clock);
    ends
}
