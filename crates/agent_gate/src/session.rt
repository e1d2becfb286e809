// The session of a seated link.
ghost use Rattle.std.specs.Prelude.{◌≡◌, ◌<◌, [], true, replicate};
ghost use Rattle.agent_gate.specs.{IsSession, count_whole, ended_session, session_state};
ghost use Rattle.agent_gate.specs.Prelude.{desk_ids, desk_caller, desk_entries, desk_cash, floor_ids, goes_on, last_of};

use crate::dialect::Dialect;
use crate::turns::turn;
use crate::welcome::welcome;
use floor::{Desk, Floor};
use game_text::Game;
use line_protocol::Cause;
use std::sync::Wait;
use std::time::Clock;
use tac_base::Agent;
use tac_base::limits::{AGENTS, GOODS, SESSION_LINES};
use tac_io::{Lines, Link};

/// What `run_session` returns at the end of a session.
#[derive(Drop)]
pub struct SessionEnd<L> {
    pub desk: Desk,
    pub link: L,
    /// The number of the link's lines whose reply was sent whole, `quit` included.
    pub lines: u32,
    pub cause: Cause,
}

/// The number of replies sent whole, if the session ends for this cause in the turn after this many.
fn whole(before: u32, cause: Cause) -> u32
    requires { before < SESSION_LINES }
    ensures { result ≡ count_whole before cause }
{
    match cause {
        Cause::Quit => before + 1,
        Cause::End | Cause::ReadFault | Cause::WriteFault | Cause::Budget => before,
    }
}

/// Welcomes an agent's link and answers each of its lines with one line, until the agent quits, the input ends or fails, a send fails, or a
/// limit is reached. This project defines limits and causes. It may wait for the link and for turns, and allocates only to read a request.
pub fn run_session<R: Wait + Clock, L: Link, D: Dialect>(
    rt: &R,
    floor: &Floor,
    game: &Game,
    dialect: &D,
    mut desk: Desk,
    mut lines: Lines<L>,
) -> SessionEnd<L>
    requires own { desk_ids desk ≡ floor_ids floor.now }
    requires agent { desk_caller desk < AGENTS }
    requires no_calls { (desk_entries desk ≡ replicate GOODS []) × (desk_cash desk ≡ []) }
    requires goes_on { goes_on (last_of lines) ≡ true }
    ensures session { IsSession (D.form dialect.now) game.now (session_state L.state lines desk) (ended_session L.state result) }
{
    let agent = Agent::new(desk.caller().get()).unwrap();
    let Ok(()) = welcome(&mut lines, game, agent) else {
        return SessionEnd {
            desk,
            link: lines.into_link(),
            lines: 0,
            cause: Cause::WriteFault,
        };
    };
    for answered in 0..SESSION_LINES {
        if let Err(cause) = turn(rt, floor, dialect, &mut desk, &mut lines) {
            return SessionEnd {
                desk,
                link: lines.into_link(),
                lines: whole(answered, cause),
                cause,
            };
        }
    }
    SessionEnd {
        desk,
        link: lines.into_link(),
        lines: SESSION_LINES,
        cause: Cause::Budget,
    }
}
