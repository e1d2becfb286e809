// Counts the lines of a game script.
ghost use Rattle.std.specs.Prelude.{◌≡◌, ◌≤◌, []};
ghost use Rattle.script_run.specs.GameScripts as scripts;
ghost use Rattle.script_run.specs.ScriptLines.{CountsLine};
ghost use Rattle.script_run.specs.declared.game.lines.GameLine.{GameLine};

use crate::ScriptReason;
use crate::game::lines::{GameLine, line_of};
use line_protocol::{Request, RequestFault};
use tac_base::Agent;
use tac_base::limits::{SESSION_LINES, TICKS};

/// The number of ticks, the number of lines of each agent, and which agents ended their sessions.
#[derive(Drop)]
pub(crate) struct GameCounts {
    ticks: u8,
    of_agent: [u32; 8],
    has_quit: [bool; 8],
}

/// Whether an agent requests to end its session.
fn is_quit(asked: &Result<Request, RequestFault>) -> bool
    ensures { result ≡ scripts.is_quit asked.now }
{
    matches!(asked, Ok(Request::Quit))
}

impl GameCounts {
    ghost use Rattle.script_run.specs.GameCounts.{AreGameCounts};

    pub(crate) fn new() -> GameCounts
        ensures { AreGameCounts [] result }
    {
        GameCounts {
            ticks: 0,
            of_agent: [0; 8],
            has_quit: [false; 8],
        }
    }

    /// Counts a line and returns what it requests, or returns the first reason why it is bad.
    pub(crate) fn judge(&mut self, line: &[u8]) -> Result<GameLine, ScriptReason>
        ensures { CountsLine AreGameCounts scripts.judge_game_line line.now self.old self.new result }
    {
        match line_of(line) {
            Ok(line) => self.admit(line),
            Err(reason) => Err(reason),
        }
    }

    /// Counts a line if it is allowed here, or returns the reason why it is not.
    fn admit(&mut self, line: GameLine) -> Result<GameLine, ScriptReason>
        ensures { CountsLine AreGameCounts scripts.limited_game_line line self.old self.new result }
    {
        match line {
            GameLine::Tick => self.count_tick(),
            GameLine::Asks { agent, asked } => self.count_line(agent, asked),
        }
    }

    /// Counts a tick, if one is left.
    fn count_tick(&mut self) -> Result<GameLine, ScriptReason>
        ensures { CountsLine AreGameCounts scripts.limited_game_line GameLine.Tick self.old self.new result }
    {
        if self.ticks >= TICKS {
            return Err(ScriptReason::TooMany);
        }
        self.ticks += 1;
        Ok(GameLine::Tick)
    }

    /// Counts a line of an agent, if the agent has lines left and has not ended its session.
    fn count_line(
        &mut self,
        agent: Agent,
        asked: Result<Request, RequestFault>,
    ) -> Result<GameLine, ScriptReason>
        ensures { CountsLine AreGameCounts scripts.limited_game_line (GameLine.Asks agent asked) self.old self.new result }
    {
        let place = usize::from(agent.get());
        if self.has_quit[place] {
            return Err(ScriptReason::Ended);
        }
        let count = self.of_agent[place];
        if count >= SESSION_LINES {
            return Err(ScriptReason::TooMany);
        }
        self.of_agent[place] = count + 1;
        self.has_quit[place] = is_quit(&asked);
        Ok(GameLine::Asks { agent, asked })
    }
}
