// Runs the commands that need no links.
ghost use Rattle.std.specs.Prelude.{◌≡◌, [], IfSome};
ghost use Rattle.tac_commands.specs.{canonical_text, upgraded, made_game, IsSolvedText, MaySelect, WritesDue, seen_batch, IsPromptBatch, IsShortBatch, IsWithinBatch};
ghost use Rattle.tac_commands.specs.Commands as commands;
ghost use Rattle.tac_commands.specs.Ends.{Ends, EndsBatch};

use crate::audit_command::audit_files;
use crate::ends::End;
use crate::reading::read_value;
use crate::refusals::Refusal;
use crate::script_commands::{hotel_by_file, play_files};
use crate::step_command::step_files;
use crate::table_command::table_files;
use crate::trial_command::trial;
use crate::vouch_command::vouch_files;
use crate::words::BatchCommand;
use crate::worth_command::worth_file;
use allocator::{print_solved, solve};
use draw_maker::make_game;
use game_text::{Account, Game, print_game};
use std::alloc::Global;
use std::thread::Threads;
use tac_io::{Files, Sink, write_all};

/// Writes the canonical text of a game.
fn write_game<K: Sink>(alloc: Global, game: &Game, out: &mut K) -> End
    ensures { Ends (WritesDue (λ text. text ≡ canonical_text game.now)) (K.state out.old) (K.state out.new) result }
{
    let Ok(text) = print_game(alloc, game) else {
        return End::Refused(Refusal::Memory);
    };
    match write_all(out, text.as_slice()) {
        Ok(()) => End::Done,
        Err(_) => End::WriteFault,
    }
}

/// Writes the canonical text of the same game in version 2.
fn write_upgraded<K: Sink>(alloc: Global, game: Game, out: &mut K) -> End
    ensures { Ends (WritesDue (λ text. text ≡ canonical_text (upgraded game))) (K.state out.old) (K.state out.new) result }
{
    write_game(alloc, &game.upgraded(), out)
}

/// Writes the canonical text of the game made from a seed.
fn make<K: Sink>(alloc: Global, seed: u64, out: &mut K) -> End
    ensures { Ends (WritesDue (λ text. text ≡ canonical_text (made_game seed))) (K.state out.old) (K.state out.new) result }
{
    write_game(alloc, &make_game(seed), out)
}

/// Writes a best allocation of an account, with its certificate.
fn write_solved<K: Sink>(alloc: Global, account: &Account, out: &mut K) -> End
    ensures { Ends (WritesDue (IsSolvedText account.now)) (K.state out.old) (K.state out.new) result }
{
    let Ok(solved) = solve(alloc, account) else {
        return End::Refused(Refusal::Memory);
    };
    let Ok(text) = print_solved(alloc, &solved) else {
        return End::Refused(Refusal::Memory);
    };
    match write_all(out, text.as_slice()) {
        Ok(()) => End::Done,
        Err(_) => End::WriteFault,
    }
}

/// Writes the game of the file of this name in its canonical text.
fn show<F: Files, K: Sink>(alloc: Global, name: &str, files: &mut F, out: &mut K) -> End
    requires { MaySelect (F.state files.old) name.now }
    ensures { EndsBatch (commands.Show name.now) (F.state files.old) (F.state files.new) (K.state out.old) (K.state out.new) result }
{
    match read_value::<Game, F>(alloc, files, name) {
        Ok(game) => write_game(alloc, &game, out),
        Err(refusal) => End::Refused(refusal),
    }
}

/// Writes the game of the file of this name in the canonical text of version 2.
fn upgrade<F: Files, K: Sink>(alloc: Global, name: &str, files: &mut F, out: &mut K) -> End
    requires { MaySelect (F.state files.old) name.now }
    ensures { EndsBatch (commands.Upgrade name.now) (F.state files.old) (F.state files.new) (K.state out.old) (K.state out.new) result }
{
    match read_value::<Game, F>(alloc, files, name) {
        Ok(game) => write_upgraded(alloc, game, out),
        Err(refusal) => End::Refused(refusal),
    }
}

/// Solves the account in the file of this name.
fn solve_file<F: Files, K: Sink>(alloc: Global, name: &str, files: &mut F, out: &mut K) -> End
    requires { MaySelect (F.state files.old) name.now }
    ensures { EndsBatch (commands.Solve name.now) (F.state files.old) (F.state files.new) (K.state out.old) (K.state out.new) result }
{
    match read_value::<Account, F>(alloc, files, name) {
        Ok(account) => write_solved(alloc, &account, out),
        Err(refusal) => End::Refused(refusal),
    }
}

/// Runs a command that needs no links. It selects the command's files in order, up to the first that cannot be read or a log that is not sound.
/// If the selected names are known, there are none yet, and each name has at most 1024 bytes. A trial's counts and a table's are within their
/// limits. `finish` writes a refusal.
pub(crate) fn run_batch<R: Threads + Sync, F: Files, K: Sink>(
    rt: &R,
    alloc: Global,
    command: BatchCommand<'_>,
    files: &mut F,
    out: &mut K,
) -> End
    requires names { IfSome (F.state files.old).names (λ names. (names ≡ []) × IsShortBatch command) }
    requires within { IsWithinBatch command }
    ensures ends { EndsBatch (seen_batch command.entry) (F.state files.old) (F.state files.new) (K.state out.old) (K.state out.new) result }
    ensures prompt { IsPromptBatch (seen_batch command.entry) (F.state files.old) (F.state files.new) (K.state out.old) (K.state out.new) }
{
    match command {
        BatchCommand::Hotel { script } => hotel_by_file(alloc, script, files, out),
        BatchCommand::Show { game } => show(alloc, game, files, out),
        BatchCommand::Upgrade { game } => upgrade(alloc, game, files, out),
        BatchCommand::Make { seed } => make(alloc, seed, out),
        BatchCommand::Solve { account } => solve_file(alloc, account, files, out),
        BatchCommand::Worth { account } => worth_file(alloc, account, files, out),
        BatchCommand::Play { game, script } => play_files(rt, alloc, game, script, files, out),
        BatchCommand::Step { game, script } => step_files(rt, alloc, game, script, files, out),
        BatchCommand::Trial { seed, count } => trial(rt, alloc, seed, count, out),
        BatchCommand::Audit { game, log } => audit_files(alloc, game, log, files, out),
        BatchCommand::Vouch {
            game,
            log,
            asked,
            said,
            form,
        } => vouch_files(alloc, game, log, asked, said, form, files, out),
        BatchCommand::Table { names } => table_files(alloc, names, files, out),
    }
}
