// Plays a game from a script.
ghost use Rattle.std.specs.Prelude.{◌≡◌, ◌≤◌, ℕ, List, length};
ghost use Rattle.tac_io.specs.Written.{WritesPiece};
ghost use Rattle.script_run.specs.{PlaysScript, PlaysLines, PlaysToEnd, WritesPlayed, first_text, PlaysQuietly, IsQuietFault, quiet_of};
ghost use Rattle.script_run.specs.declared.game.lines.GameLine.{GameLine};

use crate::fault::{QuietFault, ScriptFault, ScriptReason};
use crate::game::play_count::{PlayCount, counted};
use crate::game::run::GameRun;
use auction_core::Closed;
use game_log::{LogHead, LogWriteFault, log_ranges, score_game, write_play_part, write_scores};
use game_text::Game;
use score_sheet::Sheet;
use std::alloc::Global;
use std::thread::Threads;
use tac_base::limits::TEXT_BYTES;
use tac_io::{Failed, Sink, write_all};
use text_forms::cut;

/// A game played to its end: the text still to be written for its lines, and the histories.
#[derive(Drop)]
pub(crate) struct FinishedGame {
    replies: Vec<u8>,
    closed: Closed,
}

impl FinishedGame {
    ghost use Rattle.script_run.specs.{HasRunGame};
    ghost use Rattle.script_run.specs.PlayedGames.{IsPlayedToEnd};

    /// Ends the game after its last line: makes the remaining ticks and closes it.
    pub(crate) fn end(game: &Game, run: GameRun<'_>) -> FinishedGame
        ensures { (lines : List GameLine) (written : List ℕ) → HasRunGame game.now lines written run.entry → IsPlayedToEnd game.now lines written result }
    {
        let (replies, closed) = run.close();
        log_ranges(game, &LogHead::Play, &closed);
        FinishedGame { replies, closed }
    }
}

/// Plays all lines of a script.
fn play_lines<'a>(alloc: Global, game: &'a Game, script: &[u8]) -> Result<GameRun<'a>, ScriptFault>
    requires { length script.now ≤ TEXT_BYTES }
    ensures { PlaysLines game.now script.now result }
{
    let Ok(mut run) = GameRun::begin(alloc, game, 0) else {
        return Err(ScriptFault::Memory);
    };
    let mut rest = script;
    let mut number = 1;
    while let Some((line, after)) = cut(rest, b'\n') {
        run.step(number, line)?;
        rest = after;
        number += 1;
    }
    if rest.is_empty() {
        Ok(run)
    } else {
        Err(ScriptFault::Line {
            line: number,
            reason: ScriptReason::NoLineEnd.number(),
        })
    }
}

/// Plays a whole game by the lines of a script.
fn play_to_end(alloc: Global, game: &Game, script: &[u8]) -> Result<FinishedGame, ScriptFault>
    ensures { PlaysToEnd game.now script.now result }
{
    if script.len() > TEXT_BYTES as usize {
        return Err(ScriptFault::TooLong);
    }
    match play_lines(alloc, game, script) {
        Ok(run) => Ok(FinishedGame::end(game, run)),
        Err(fault) => Err(fault),
    }
}

/// Writes the replies of a game and the first part of its log.
fn write_first<K: Sink>(sink: &mut K, played: &FinishedGame) -> Result<(), Failed>
    ensures { WritesPiece (first_text played.now) (K.state sink.old) (K.state sink.new) result }
{
    match write_all(sink, played.replies.as_slice()) {
        Ok(()) => write_play_part(sink, &LogHead::Play, &played.closed),
        Err(failed) => Err(failed),
    }
}

/// Writes what is still to be written of a game: replies, and its log.
pub(crate) fn write_played<R: Threads + Sync, K: Sink>(
    rt: &R,
    alloc: Global,
    game: &Game,
    played: &FinishedGame,
    sink: &mut K,
) -> Result<(), ScriptFault>
    ensures { WritesPlayed game.now played.now (K.state sink.old) (K.state sink.new) result }
{
    match write_first(sink, played) {
        Ok(()) => match write_scores(rt, alloc, game, &played.closed, sink) {
            Ok(()) => Ok(()),
            Err(LogWriteFault::Failed) => Err(ScriptFault::Failed),
            Err(LogWriteFault::Memory) => Err(ScriptFault::Memory),
        },
        Err(_) => Err(ScriptFault::Failed),
    }
}

/// Plays a whole game on one thread by the lines of a script, and writes the replies and then the log. It tests all lines and
/// makes all calls before it writes anything. After `Failed` the first bytes of the text were written, but not all. After
/// `Memory` nothing was written, or the replies and the first part of the log. This project defines the form of the text.
pub fn play<R: Threads + Sync, K: Sink>(
    rt: &R,
    alloc: Global,
    game: &Game,
    text: &[u8],
    sink: &mut K,
) -> Result<PlayCount, ScriptFault>
    ensures { PlaysScript game.now text.now (K.state sink.old) (K.state sink.new) result }
{
    let played = match play_to_end(alloc, game, text) {
        Ok(played) => played,
        Err(fault) => return Err(fault),
    };
    match write_played(rt, alloc, game, &played, sink) {
        Ok(()) => Ok(counted(&played.closed)),
        Err(fault) => Err(fault),
    }
}

/// The fault of a script that was played without writing.
fn quiet(fault: ScriptFault) -> QuietFault
    requires { IsQuietFault fault }
    ensures { result ≡ quiet_of fault }
{
    match fault {
        ScriptFault::Line { line, reason } => QuietFault::Line { line, reason },
        ScriptFault::TooLong => QuietFault::TooLong,
        ScriptFault::Failed => unreachable!(),
        ScriptFault::Memory => QuietFault::Memory,
    }
}

/// Plays the same game as `play`, and writes nothing. Returns the number of entries and trades, and the scores. The faults are those of
/// `play` except a failed write.
pub fn play_quiet<R: Threads + Sync>(
    rt: &R,
    alloc: Global,
    game: &Game,
    text: &[u8],
) -> Result<(PlayCount, Sheet), QuietFault>
    ensures { PlaysQuietly game.now text.now result }
{
    let played = match play_to_end(alloc, game, text) {
        Ok(played) => played,
        Err(fault) => return Err(quiet(fault)),
    };
    match score_game(rt, alloc, game, &played.closed) {
        Ok(sheet) => Ok((counted(&played.closed), sheet)),
        Err(_) => Err(QuietFault::Memory),
    }
}
