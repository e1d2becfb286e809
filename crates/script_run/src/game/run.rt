// Plays a game line by line.
ghost use Rattle.std.specs.Prelude.{◌≡◌, ◌+◌, ◌≤◌, ◌++◌, ℕ, [], List, IfOk, IsOk, OnOk, vec_capacity, vec_len};
ghost use Rattle.game_text.specs.Games.{GameFile};
ghost use Rattle.script_run.specs.OneThreadRun as run;
ghost use Rattle.script_run.specs.declared.game.lines.GameLine.{GameLine};

use crate::ScriptFault;
use crate::game::counts::GameCounts;
use crate::game::lines::GameLine;
use crate::game::table::Table;
use auction_core::Closed;
use game_text::Game;
use line_protocol::{Said, print_reply};
use std::alloc::{AllocError, Global};
use tac_base::limits::REPLY_TEXT;
use tac_base::{Agent, Memory, Text, print_numeral};

/// The table, the number of lines so far, and the text to be written for them.
#[derive(Drop)]
pub(crate) struct GameRun<'a> {
    table: Table<'a>,
    counts: GameCounts,
    text: Vec<u8>,
}

/// The line that answers an agent.
fn line_to_agent(agent: Agent, said: &Said) -> Text
    ensures { result ≡ run.line_to_agent agent said.now }
{
    let mut line = Text::new();
    print_numeral(u64::from(agent.get()), &mut line);
    line.push(b' ');
    print_reply(said, &mut line);
    line.push(b'\n');
    line
}

/// Plays a line, and appends the text to be written for it: at most `REPLY_TEXT` bytes.
fn play_line(table: &mut Table, text: &mut Vec<u8>, line: &GameLine) -> Result<(), AllocError>
    ensures game { table.new.game ≡ table.old.game }
    ensures state { table.new.state ≡ run.after_line table.old.game line.now table.old.state }
    ensures text { OnOk result (text.new.items ≡ text.old.items ++ run.line_text table.old.game line.now table.old.state) }
    ensures len { vec_len text.new ≤ vec_len text.old + REPLY_TEXT }
    ensures capacity { vec_capacity text.old ≤ vec_capacity text.new }
    ensures room { vec_len text.old + REPLY_TEXT ≤ vec_capacity text.old → IsOk result }
{
    match line {
        GameLine::Tick => {
            table.tick();
            Ok(())
        }
        GameLine::Asks { agent, asked } => {
            let said = table.answer(*agent, asked);
            text.extend_from_slice(line_to_agent(*agent, &said).as_slice())
        }
    }
}

impl<'a> GameRun<'a> {
    ghost use Rattle.script_run.specs.GameRuns.{HasRunGame, IsGranted, PlaysNextLine};
    ghost use Rattle.script_run.specs.OneThreadRun.{replies};

    /// Begins the game, before the first line, with room for this many bytes of text.
    pub(crate) fn begin(alloc: Global, game: &'a Game, room: usize) -> Result<GameRun<'a>, Memory>
        ensures run { IfOk result (HasRunGame game.now [] []) }
        ensures empty { IfOk result (λ run. run.text.items ≡ []) }
        ensures len { IfOk result (λ run. vec_len run.text ≡ 0) }
        ensures room { IfOk result (λ run. room ≤ vec_capacity run.text) }
    {
        let table = Table::begin(alloc, game)?;
        Ok(GameRun {
            table,
            counts: GameCounts::new(),
            text: Vec::with_capacity(alloc, room)?,
        })
    }

    /// Plays the line of this number. If there is room for `REPLY_TEXT` bytes of text, it requests no memory. After an error no further line may follow.
    pub(crate) fn step(&mut self, number: u32, line: &[u8]) -> Result<(), ScriptFault>
        ensures steps { PlaysNextLine self.old (record { number = number; bytes = line.now }) self.new result }
        ensures len { vec_len self.new.text ≤ vec_len self.old.text + REPLY_TEXT }
        ensures capacity { vec_capacity self.old.text ≤ vec_capacity self.new.text }
        ensures room { vec_len self.old.text + REPLY_TEXT ≤ vec_capacity self.old.text → IsGranted result }
    {
        let asked = match self.counts.judge(line) {
            Ok(asked) => asked,
            Err(reason) => {
                return Err(ScriptFault::Line {
                    line: number,
                    reason: reason.number(),
                });
            }
        };
        match play_line(&mut self.table, &mut self.text, &asked) {
            Ok(()) => Ok(()),
            Err(_) => Err(ScriptFault::Memory),
        }
    }

    /// The text to be written for the lines since the text was last dropped.
    pub(crate) fn text(&self) -> &[u8]
        ensures { result.now ≡ self.now.text.items }
    {
        self.text.as_slice()
    }

    /// Drops the text once it is written.
    pub(crate) fn drop_text(&mut self)
        ensures run { (game : GameFile) (lines : List GameLine) (written : List ℕ) → HasRunGame game lines written self.old → HasRunGame game lines (replies game lines) self.new }
        ensures empty { self.new.text.items ≡ [] }
        ensures len { vec_len self.new.text ≡ 0 }
        ensures capacity { vec_capacity self.new.text ≡ vec_capacity self.old.text }
    {
        self.text.clear();
    }

    /// Makes the remaining ticks. Returns the text to be written for the lines, and the histories.
    pub(crate) fn close(self) -> (Vec<u8>, Closed)
        ensures text { result.0.items ≡ self.entry.text.items }
        ensures closed { (game : GameFile) (lines : List GameLine) (written : List ℕ) → HasRunGame game lines written self.entry → result.1 ≡ run.closed_of game (run.whole_game game lines) }
    {
        let mut table = self.table;
        table.finish();
        (self.text, table.close())
    }
}
