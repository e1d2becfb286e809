// Walks over the lines of a link whose replies arrived.
ghost use Rattle.std.specs.Prelude.{◌≡◌, ◌<◌, ◌≤◌, List, IfOk, length};
ghost use Rattle.std.specs.Global.{Vec as SeenVec};
ghost use Rattle.link_audit.specs.Prelude.{Board as SeenBoard, LINK_BYTES};
ghost use Rattle.link_audit.specs.Ahead.{HasTruePosts, IsOver, IsTable, start, subject_of};
ghost use Rattle.link_audit.specs.Walks.{HasHeard, HasLeft, IsHeard, EndsByLeaving, replies_at};

use crate::known::KnownDialect;
use crate::leftovers::first_left;
use crate::lines::line_end;
use crate::places::Places;
use crate::stepping::{Step, step_line};
use crate::vouching::Difference;
use log_reader::Log;
use tac_base::limits::SESSION_LINES;
use tac_base::{Agent, Board, Memory};

/// The result of a walk over the lines whose replies arrived.
#[derive(Clone, Copy, Debug)]
pub(crate) enum Heard {
    /// Each of this many lines got its reply. The next line begins at this place.
    Through {
        places: Places,
        at: usize,
        lines: u32,
    },
    /// The agent left by the last of this many lines, and the log has nothing more of it.
    Gone {
        lines: u32,
    },
    /// The log differs from the link.
    Not(Difference),
}

/// The places before the walk.
fn start_places() -> Places
    ensures { result ≡ start }
{
    Places {
        next: [0; 28],
        made: [0; 28],
        seen: [0; 28],
        cash: 0,
        readings: 0,
    }
}

/// The result of a walk that ends with the line by which the agent left.
fn leave(log: &Log, agent: Agent, places: &Places, more: bool, lines: u32) -> Heard
    requires { lines < SESSION_LINES }
    ensures left { (boards : List (SeenVec SeenBoard)) → EndsByLeaving (IsOver (subject_of log.now boards agent) places.now) more result }
    ensures how { (boards : List (SeenVec SeenBoard)) → HasLeft (subject_of log.now boards agent) places.now lines more result }
{
    if more {
        return Heard::Not(Difference::Line(lines + 2));
    }
    match first_left(log, agent, places) {
        None => Heard::Gone { lines: lines + 1 },
        Some(left) => Heard::Not(left),
    }
}

/// Walks over the lines whose replies arrived.
pub(crate) fn hear<D: KnownDialect>(
    log: &Log,
    boards: &[Vec<Board>],
    agent: Agent,
    dialect: &D,
    asked: &[u8],
    from: usize,
    said: &[u8],
    told: usize,
) -> Result<Heard, Memory>
    requires posts { HasTruePosts log.now }
    requires table { IsTable boards.now }
    requires short { (from ≤ length asked.now) × (length asked.now ≤ LINK_BYTES) }
    requires welcome { told ≤ length said.now }
    ensures ahead { IfOk result (IsHeard (D.form dialect.now) (subject_of log.now boards.now agent) asked.now from (replies_at said.now told)) }
    ensures turns { IfOk result (HasHeard (D.form dialect.now) (subject_of log.now boards.now agent) asked.now from (replies_at said.now told)) }
{
    let mut places = start_places();
    let mut at = from;
    let mut place = told;
    for lines in 0..SESSION_LINES {
        let Some(reply_end) = line_end(said, place) else {
            return Ok(Heard::Through { places, at, lines });
        };
        let Some(end) = line_end(asked, at) else {
            return Ok(Heard::Not(Difference::Line(lines + 1)));
        };
        let reply = &said[place..reply_end];
        let line = &asked[at..end];
        match step_line(log, boards, agent, &mut places, dialect, line, true, reply)? {
            Step::Stays => {}
            Step::Leaves => {
                let more = line_end(said, reply_end + 1).is_some();
                return Ok(leave(log, agent, &places, more, lines));
            }
            Step::Stuck => return Ok(Heard::Not(Difference::Line(lines + 1))),
        }
        at = end + 1;
        place = reply_end + 1;
    }
    match line_end(said, place) {
        None => Ok(Heard::Through {
            places,
            at,
            lines: SESSION_LINES,
        }),
        Some(_) => Ok(Heard::Not(Difference::Line(SESSION_LINES + 1))),
    }
}
