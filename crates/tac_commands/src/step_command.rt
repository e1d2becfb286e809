// Plays a game line by line.
ghost use Rattle.std.specs.Prelude.{◌≡◌, ◌≤◌, [], length, IfSome};
ghost use Rattle.tac_commands.specs.{NAME_BYTES, IsAtEnd, MaySelect, step_steps, EndsBatch, EndsSteps, HearsPromptly, StepsPromptly};
ghost use Rattle.tac_commands.specs.Commands as commands;
ghost use Rattle.tac_commands.specs.Ends as ends;

use crate::ends::End;
use crate::reading::read_value;
use crate::refusals::Refusal;
use game_text::Game;
use script_run::{StepFault, script_law, step_game};
use std::alloc::Global;
use std::thread::Threads;
use tac_io::{Files, Sink};

/// The end of a command that played a game line by line.
fn step_end(played: Result<(), StepFault>) -> End
    ensures { result ≡ ends.step_end played }
{
    match played {
        Ok(()) => End::Done,
        Err(StepFault::Line { line, reason }) => End::Refused(Refusal::TextLine { line, reason }),
        Err(StepFault::TooLong) => End::Refused(Refusal::TextTooLong),
        Err(StepFault::Unread) => End::Refused(Refusal::ReadFault),
        Err(StepFault::Unwritten) => End::WriteFault,
        Err(StepFault::Memory) => End::Refused(Refusal::Memory),
    }
}

/// Plays a game by the lines of the script in the file of this name, while it reads them. The file read before it is at its end.
fn step_by_file<R: Threads + Sync, F: Files, K: Sink>(
    rt: &R,
    alloc: Global,
    game: &Game,
    name: &str,
    files: &mut F,
    out: &mut K,
) -> End
    requires name { MaySelect (F.state files.old) name.now }
    requires end { IsAtEnd (F.state files.old).left }
    ensures ends { EndsSteps (step_steps game.now name.now) (F.state files.old) (F.state files.new) (K.state out.old) (K.state out.new) result }
    ensures prompt { HearsPromptly game.now name.now (F.state files.old) (F.state files.new) (K.state out.old) (K.state out.new) }
{
    script_law(game);
    match files.select(name) {
        Ok(()) => step_end(step_game(rt, alloc, game, files, out)),
        Err(_) => End::Refused(Refusal::ReadFault),
    }
}

/// Plays the game of the first file line by line, while it reads the script of the second. It selects the script only if the game is not refused.
pub(crate) fn step_files<R: Threads + Sync, F: Files, K: Sink>(
    rt: &R,
    alloc: Global,
    game: &str,
    script: &str,
    files: &mut F,
    out: &mut K,
) -> End
    requires { IfSome (F.state files.old).names (λ names. (names ≡ []) × (length game.now ≤ NAME_BYTES) × (length script.now ≤ NAME_BYTES)) }
    ensures ends { EndsBatch (commands.Step game.now script.now) (F.state files.old) (F.state files.new) (K.state out.old) (K.state out.new) result }
    ensures prompt { StepsPromptly game.now script.now (F.state files.old) (F.state files.new) (K.state out.old) (K.state out.new) }
{
    match read_value::<Game, F>(alloc, files, game) {
        Ok(game) => step_by_file(rt, alloc, &game, script, files, out),
        Err(refusal) => End::Refused(refusal),
    }
}
