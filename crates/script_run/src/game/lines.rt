// Reads the lines of a game script.
ghost use Rattle.std.specs.Prelude.{◌≡◌, ◌∷◌, []};
ghost use Rattle.script_run.specs.GameLines as lines;

use crate::ScriptReason;
use crate::hotel::lines::agent_of_digit;
use line_protocol::{Request, RequestFault, read_request};
use tac_base::Agent;
use tac_base::limits::LINE_BYTES;

/// What a line requests.
#[derive(Debug, Drop)]
pub enum GameLine {
    /// The calls of the next tick.
    Tick,
    /// What an agent requests, or why its text is not a request.
    Asks {
        agent: Agent,
        asked: Result<Request, RequestFault>,
    },
}

/// Reads an agent's request.
fn asks_of(agent: Option<Agent>, request: &[u8]) -> Result<GameLine, ScriptReason>
    ensures { result ≡ lines.asks_of agent request.now }
{
    let Some(agent) = agent else {
        return Err(ScriptReason::Form);
    };
    if request.len() > LINE_BYTES as usize {
        return Err(ScriptReason::Form);
    }
    Ok(GameLine::Asks {
        agent,
        asked: read_request(request),
    })
}

/// Reads a line of an agent, a space and a request.
fn agent_line(line: &[u8]) -> Result<GameLine, ScriptReason>
    ensures { result ≡ lines.request_line line.now }
{
    match line {
        [digit, b' ', request @ ..] => asks_of(agent_of_digit(*digit), request),
        _ => Err(ScriptReason::Form),
    }
}

/// Reads what a line requests, or the reason why it is bad in itself: its form.
#[tactic(auto, unfolding(crate::specs::GameLines::game_line_of))]
pub(crate) fn line_of(line: &[u8]) -> Result<GameLine, ScriptReason>
    ensures { result ≡ lines.game_line_of line.now }
{
    if line == b"tick".as_slice() {
        Ok(GameLine::Tick)
    } else {
        agent_line(line)
    }
}
