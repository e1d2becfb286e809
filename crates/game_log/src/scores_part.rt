// Writes the second part of the log of a game, from its histories.
ghost use Rattle.std.specs.Prelude.{IfOk};
ghost use Rattle.game_log.specs.ScoredGames.{IsSheetOf};
ghost use Rattle.game_log.specs.SheetWritten.{WritesSheet};

use crate::{LogWriteFault, write_sheet_part};
use auction_core::Closed;
use game_text::Game;
use score_sheet::{Sheet, settle, sheet};
use std::alloc::Global;
use std::thread::Threads;
use tac_base::Memory;
use tac_io::Sink;

/// Scores a game whose calls are over, from the goods and dollars that its histories leave to each agent.
pub fn score_game<R: Threads + Sync>(
    rt: &R,
    alloc: Global,
    game: &Game,
    closed: &Closed,
) -> Result<Sheet, Memory>
    ensures { IfOk result (IsSheetOf game.now closed.now) }
{
    sheet(rt, alloc, game, &settle(closed))
}

/// Scores a game whose calls are over, and writes the second part of its log. After `Failed` only some of its first bytes, or
/// none, were written; after `Memory` nothing was.
pub fn write_scores<R: Threads + Sync, K: Sink>(
    rt: &R,
    alloc: Global,
    game: &Game,
    closed: &Closed,
    sink: &mut K,
) -> Result<(), LogWriteFault>
    ensures { WritesSheet game.now closed.now (K.state sink.old) (K.state sink.new) result }
{
    match score_game(rt, alloc, game, closed) {
        Ok(sheet) => write_sheet_part(alloc, sink, &sheet),
        Err(_) => Err(LogWriteFault::Memory),
    }
}
