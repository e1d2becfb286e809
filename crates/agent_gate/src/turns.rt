// One turn of a session.
ghost use Rattle.std.specs.Prelude.{◌≡◌, ◌<◌, ◌∷◌, [], ◌++◌, true, OnOk};
ghost use Rattle.agent_gate.specs.{IsSameDesk, desk_ids, desk_caller, floor_ids, goes_on, KeepsPlace, last_of, link_of, OnlySends, TakesNext, HasTurn, HasTurnCause, session_state};

use crate::answering::answer_line;
use crate::dialect::Dialect;
use floor::{Desk, Floor};
use line_protocol::{Cause, Said};
use std::sync::Wait;
use std::time::Clock;
use tac_base::Text;
use tac_base::limits::AGENTS;
use tac_io::{Failed, LineGot, Lines, Link};

/// Reads the next line and answers it, or returns the cause of the session's end.
fn answer_next<R: Wait + Clock, L: Link, D: Dialect>(
    rt: &R,
    floor: &Floor,
    dialect: &D,
    desk: &mut Desk,
    lines: &mut Lines<L>,
) -> Result<Said, Cause>
    requires own { desk_ids desk.old ≡ floor_ids floor.now }
    requires agent { desk_caller desk.old < AGENTS }
    requires goes_on { goes_on (last_of lines.old) ≡ true }
    ensures next { TakesNext (D.form dialect.now) (session_state L.state lines.old desk.old) (session_state L.state lines.new desk.new) result }
    ensures same { IsSameDesk desk.old desk.new }
    ensures goes_on { OnOk result (goes_on (last_of lines.new) ≡ true) }
    ensures sent { (L.state (link_of lines.new)).sent ≡ (L.state (link_of lines.old)).sent }
    ensures cause { HasTurnCause (L.state (link_of lines.old)) (L.state (link_of lines.new)) result }
{
    match lines.next() {
        LineGot::Line => Ok(answer_line(rt, floor, dialect, desk, lines.line())),
        LineGot::TooLong => Ok(Said::TooLong),
        LineGot::End => Err(Cause::End),
        LineGot::Failed => Err(Cause::ReadFault),
        LineGot::Budget => Err(Cause::Budget),
    }
}

/// Sends the line of a reply, with its line end, in one piece.
fn tell<L: Link, D: Dialect>(dialect: &D, said: &Said, lines: &mut Lines<L>) -> Result<(), Failed>
    ensures sends { OnlySends (L.state (link_of lines.old)) (L.state (link_of lines.new)) ((D.form dialect.now).text said.now ++ 10 ∷ []) result }
    ensures place { KeepsPlace lines.old lines.new }
{
    let mut reply = Text::new();
    dialect.print(said, &mut reply);
    reply.push(b'\n');
    lines.send(reply.as_slice())
}

/// Answers the next line and sends the reply, or returns the cause of the session's end.
pub(crate) fn turn<R: Wait + Clock, L: Link, D: Dialect>(
    rt: &R,
    floor: &Floor,
    dialect: &D,
    desk: &mut Desk,
    lines: &mut Lines<L>,
) -> Result<(), Cause>
    requires own { desk_ids desk.old ≡ floor_ids floor.now }
    requires agent { desk_caller desk.old < AGENTS }
    requires goes_on { goes_on (last_of lines.old) ≡ true }
    ensures turn { HasTurn (D.form dialect.now) (session_state L.state lines.old desk.old) (session_state L.state lines.new desk.new) result }
    ensures same { IsSameDesk desk.old desk.new }
    ensures goes_on { OnOk result (goes_on (last_of lines.new) ≡ true) }
    ensures cause { HasTurnCause (L.state (link_of lines.old)) (L.state (link_of lines.new)) result }
{
    let said = answer_next(rt, floor, dialect, desk, lines)?;
    let Ok(()) = tell(dialect, &said, lines) else {
        return Err(Cause::WriteFault);
    };
    match said {
        Said::Bye => Err(Cause::Quit),
        _ => Ok(()),
    }
}
