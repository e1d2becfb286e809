// Finds the step that a line of a link makes in the log.
ghost use Rattle.std.specs.Prelude.{◌≡◌, if◌then◌else◌, IfOk, Ok};
ghost use Rattle.link_audit.specs.Prelude.{ended_line, Asks};
ghost use Rattle.link_audit.specs.Ahead.{FitsReply, HasTruePosts, IsAsked, IsStep, IsTable, subject_of};

use crate::known::KnownDialect;
use crate::places::Places;
use crate::replies::fits;
use crate::taking::{take_call, take_quote, take_reading};
use agent_gate::Dialect;
use line_protocol::{Request, RequestFault, Said};
use log_reader::Log;
use tac_base::limits::LINE_BYTES;
use tac_base::{Agent, Board, Memory};

/// The step that a line of a link makes in the log.
#[derive(Clone, Copy, Debug, PartialEq, Eq)]
pub(crate) enum Step {
    /// A turn after which the agent stays.
    Stays,
    /// A turn by which the agent leaves.
    Leaves,
    /// The log has no turn for the line.
    Stuck,
}

/// The step of a line after which the agent stays, if it has a turn.
fn step_if(taken: bool) -> Step
    ensures { result ≡ (if taken then Step.Stays else Step.Stuck) }
{
    if taken { Step::Stays } else { Step::Stuck }
}

/// Takes a request.
fn step_request<D: Dialect>(
    log: &Log,
    boards: &[Vec<Board>],
    agent: Agent,
    places: &mut Places,
    dialect: &D,
    request: &Request,
    heard: bool,
    reply: &[u8],
) -> Step
    requires posts { HasTruePosts log.now }
    requires table { IsTable boards.now }
    ensures { IsStep (λ item. item ≡ Asks (Ok request.now)) (FitsReply (D.form dialect.now) heard reply.now) (subject_of log.now boards.now agent) places.old places.new result }
{
    match request {
        Request::Bid { good, .. } | Request::Withdraw { good } | Request::Own { good } => {
            step_if(take_call(
                log, boards, agent, places, dialect, request, *good, heard, reply,
            ))
        }
        Request::Quote { good } => {
            step_if(take_quote(log, boards, agent, places, dialect, *good, heard, reply))
        }
        Request::Cash => step_if(take_reading(log, boards, agent, places, dialect, heard, reply)),
        Request::Quit => {
            if fits(dialect, &Said::Bye, heard, reply) {
                Step::Leaves
            } else {
                Step::Stuck
            }
        }
    }
}

/// Takes a request, or the fault of a line that is none.
fn step_asked<D: Dialect>(
    log: &Log,
    boards: &[Vec<Board>],
    agent: Agent,
    places: &mut Places,
    dialect: &D,
    asked: &Result<Request, RequestFault>,
    heard: bool,
    reply: &[u8],
) -> Step
    requires posts { HasTruePosts log.now }
    requires table { IsTable boards.now }
    ensures { IsStep (λ item. item ≡ Asks asked.now) (FitsReply (D.form dialect.now) heard reply.now) (subject_of log.now boards.now agent) places.old places.new result }
{
    match asked {
        Ok(request) => step_request(log, boards, agent, places, dialect, request, heard, reply),
        Err(fault) => step_if(fits(dialect, &Said::Fault(*fault), heard, reply)),
    }
}

/// Takes a line. After `Memory` nothing is known of it.
pub(crate) fn step_line<D: KnownDialect>(
    log: &Log,
    boards: &[Vec<Board>],
    agent: Agent,
    places: &mut Places,
    dialect: &D,
    line: &[u8],
    heard: bool,
    reply: &[u8],
) -> Result<Step, Memory>
    requires posts { HasTruePosts log.now }
    requires table { IsTable boards.now }
    ensures { IfOk result (IsStep (IsAsked (D.form dialect.now) heard (ended_line line.now))
        (FitsReply (D.form dialect.now) heard reply.now) (subject_of log.now boards.now agent) places.old places.new) }
{
    if line.len() > LINE_BYTES as usize {
        return Ok(step_if(fits(dialect, &Said::TooLong, heard, reply)));
    }
    let asked = dialect.asks(line, heard, reply)?;
    Ok(step_asked(log, boards, agent, places, dialect, &asked, heard, reply))
}
