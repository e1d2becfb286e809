// Compares the cause of a session's end with the record of its link.
ghost use Rattle.std.specs.Prelude.{◌≡◌, ◌↔◌, Contains, IsTrue};
ghost use Rattle.link_audit.specs.Prelude.{Cause as EndCause};
ghost use Rattle.link_audit.specs.Links.{MayUseUp, logged_ends};
ghost use Rattle.link_audit.specs.Walks.{HasCauseFor, HasCauseOf, MayEndBy};

use crate::vouching::Vouching;
use line_protocol::{Cause, LogHead};
use log_reader::Log;
use tac_base::Agent;
use tac_base::limits::{LINK_BYTES, SESSION_LINES};

/// What the record of a link shows of the end of its session.
#[derive(Clone, Copy, Debug)]
pub(crate) enum Ending {
    /// The agent quit by a line that was answered.
    Quit,
    /// It did not.
    Open {
        /// As many lines were answered as a session may have.
        full: bool,
        /// Each whole line was answered.
        over: bool,
        /// One of the other lines of the session may be `quit`.
        quits: bool,
    },
}

/// Whether these bytes may use up a session.
fn may_use_up(asked: &[u8]) -> bool
    ensures { IsTrue result ↔ MayUseUp asked.now }
{
    if asked.len() >= LINK_BYTES as usize {
        return true;
    }
    let mut ends = 0;
    for place in 0..asked.len() {
        if asked[place] == b'\n' {
            ends += 1;
        }
    }
    ends > SESSION_LINES as usize
}

/// Whether a record that shows this allows a cause.
fn may_end_by(cause: Cause, ending: &Ending, asked: &[u8]) -> bool
    ensures { IsTrue result ↔ MayEndBy cause ending.now asked.now }
{
    match cause {
        Cause::Quit => match ending {
            Ending::Quit => true,
            Ending::Open { quits, .. } => *quits,
        },
        Cause::End | Cause::ReadFault => match ending {
            Ending::Quit => false,
            Ending::Open { full, .. } => !*full,
        },
        Cause::WriteFault => match ending {
            Ending::Quit => false,
            Ending::Open { full, over, .. } => !*full && !*over,
        },
        Cause::Budget => match ending {
            Ending::Quit => false,
            Ending::Open { .. } => may_use_up(asked),
        },
    }
}

/// Whether one of the ends is the agent's, for a cause that the record allows.
fn has_end(ends: &[(Agent, Cause)], agent: Agent, ending: &Ending, asked: &[u8]) -> bool
    ensures { IsTrue result ↔ ((cause : EndCause) × Contains ends.now (agent, cause) × MayEndBy cause ending.now asked.now) }
{
    for place in 0..ends.len() {
        let (seat, cause) = ends[place];
        if seat == agent && may_end_by(cause, ending, asked) {
            return true;
        }
    }
    false
}

/// Whether the head of a log has a cause for the agent that the record allows.
fn has_cause(log: &Log, agent: Agent, ending: &Ending, asked: &[u8]) -> bool
    ensures { IsTrue result ↔ HasCauseOf log.now asked.now ending.now agent }
{
    match log.head() {
        LogHead::Play => false,
        LogHead::Serve { ends, .. } => has_end(ends, agent, ending, asked),
    }
}

/// Whether the head of a log has a cause for the agent of a yes by which its session may have ended.
pub(crate) fn has_cause_for(log: &Log, asked: &[u8], ending: &Ending, vouching: &Vouching) -> bool
    ensures { IsTrue result ↔ HasCauseFor log.now asked.now ending.now vouching.now }
{
    match vouching {
        Vouching::Whole { agent, .. } => has_cause(log, *agent, ending, asked),
        Vouching::Cut { agent, .. } => has_cause(log, *agent, ending, asked),
        Vouching::Not(_) => true,
    }
}
