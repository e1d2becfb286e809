// The commands that run a script: of one hotel, and of a game.
ghost use Rattle.std.specs.Prelude.{◌≡◌, ◌≤◌, [], ◌∷◌, length, IfSome};
ghost use Rattle.tac_commands.specs.{NAME_BYTES, MaySelect, play_steps, EndsBatch, EndsSteps};
ghost use Rattle.tac_commands.specs.Commands as commands;
ghost use Rattle.tac_commands.specs.Ends as ends;

use crate::ends::End;
use crate::file_kinds::FileKind;
use crate::reading::{read_bytes, read_value};
use crate::refusals::Refusal;
use game_text::Game;
use script_run::{ScriptFault, play, run_hotel_script, script_law};
use std::alloc::Global;
use std::thread::Threads;
use tac_io::{Files, Sink};

/// The end of a command that ran a script.
fn script_end<T>(ran: Result<T, ScriptFault>) -> End
where
    T: Drop,
    ensures { result ≡ ends.script_end ran }
{
    match ran {
        Ok(_) => End::Done,
        Err(ScriptFault::Line { line, reason }) => End::Refused(Refusal::TextLine { line, reason }),
        Err(ScriptFault::TooLong) => End::Refused(Refusal::TextTooLong),
        Err(ScriptFault::Failed) => End::WriteFault,
        Err(ScriptFault::Memory) => End::Refused(Refusal::Memory),
    }
}

/// Runs one hotel by the script in the file of this name.
pub(crate) fn hotel_by_file<F: Files, K: Sink>(
    alloc: Global,
    name: &str,
    files: &mut F,
    out: &mut K,
) -> End
    requires { MaySelect (F.state files.old) name.now }
    ensures { EndsBatch (commands.Hotel name.now) (F.state files.old) (F.state files.new) (K.state out.old) (K.state out.new) result }
{
    match read_bytes(alloc, files, name, FileKind::HotelScript) {
        Ok(script) => script_end(run_hotel_script(alloc, script.as_slice(), out)),
        Err(refusal) => End::Refused(refusal),
    }
}

/// Plays a game by the script in the file of this name.
fn play_by_file<R: Threads + Sync, F: Files, K: Sink>(
    rt: &R,
    alloc: Global,
    game: &Game,
    name: &str,
    files: &mut F,
    out: &mut K,
) -> End
    requires { MaySelect (F.state files.old) name.now }
    ensures { EndsSteps (play_steps game.now name.now) (F.state files.old) (F.state files.new) (K.state out.old) (K.state out.new) result }
{
    script_law(game);
    match read_bytes(alloc, files, name, FileKind::GameScript) {
        Ok(script) => script_end(play(rt, alloc, game, script.as_slice(), out)),
        Err(refusal) => End::Refused(refusal),
    }
}

/// Plays the game of the first file by the script of the second. It reads the script only if the game is not refused.
pub(crate) fn play_files<R: Threads + Sync, F: Files, K: Sink>(
    rt: &R,
    alloc: Global,
    game: &str,
    script: &str,
    files: &mut F,
    out: &mut K,
) -> End
    requires { IfSome (F.state files.old).names (λ names. (names ≡ []) × (length game.now ≤ NAME_BYTES) × (length script.now ≤ NAME_BYTES)) }
    ensures { EndsBatch (commands.Play game.now script.now) (F.state files.old) (F.state files.new) (K.state out.old) (K.state out.new) result }
{
    match read_value::<Game, F>(alloc, files, game) {
        Ok(game) => play_by_file(rt, alloc, &game, script, files, out),
        Err(refusal) => End::Refused(refusal),
    }
}
