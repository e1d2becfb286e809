// Judges the log of a game by the game.
ghost use Rattle.std.specs.Prelude.{◌≡◌, ◌≤◌, [], ◌∷◌, length, IfSome};
ghost use Rattle.tac_commands.specs.{NAME_BYTES, MaySelect, audit_steps, EndsBatch, EndsSteps, EndsUnasked, Reads, file};
ghost use Rattle.tac_commands.specs.Commands as commands;
ghost use Rattle.tac_commands.specs.declared.file_kinds.FileKind.TheVariants.{Log as LogKind};
ghost use Rattle.tac_commands.specs.Ends.{Ends};
ghost use Rattle.tac_commands.specs.FlawTexts as texts;
ghost use Rattle.tac_commands.specs.Outcomes as outcomes;

use crate::ends::End;
use crate::numbered_lines::{counted, numbered, plain};
use crate::reading::read_value;
use crate::refusals::Refusal;
use game_text::Game;
use log_audit::{Finding, Flaw, audit_log};
use log_reader::Log;
use std::alloc::Global;
use tac_base::Text;
use tac_io::{Files, Sink, write_all};

/// The line that reports the flaw of a log.
fn flaw_text(flaw: Flaw) -> Text
    ensures { result ≡ texts.flaw_text flaw }
{
    match flaw {
        Flaw::Entry { good, position } => {
            numbered(b"unsound entry", u32::from(good.get()), position)
        }
        Flaw::Clock { good } => counted(b"unsound clock", u32::from(good.get())),
        Flaw::Cash { position } => counted(b"unsound cash", position),
        Flaw::Post { position } => counted(b"unsound post", position),
        Flaw::Unposted { good, position } => {
            numbered(b"unsound unposted", u32::from(good.get()), position)
        }
        Flaw::Score { agent } => counted(b"unsound score", u32::from(agent.get())),
        Flaw::Head => plain(b"unsound head\n"),
    }
}

/// Writes the flaw of a log.
pub(crate) fn write_flaw<K: Sink>(flaw: Flaw, out: &mut K) -> End
    ensures { Ends (λ outcome. outcome ≡ outcomes.Unsound (texts.flaw_text flaw)) (K.state out.old) (K.state out.new) result }
{
    match write_all(out, flaw_text(flaw).as_slice()) {
        Ok(()) => End::Unsound,
        Err(_) => End::WriteFault,
    }
}

/// Judges a log by its game, and writes the result.
fn judge<K: Sink>(alloc: Global, game: &Game, log: &Log, out: &mut K) -> End
    ensures { EndsUnasked (audit_steps game.now log.now) (K.state out.old) (K.state out.new) result }
{
    let Ok(finding) = audit_log(alloc, game, log) else {
        return End::Refused(Refusal::Memory);
    };
    match finding {
        Finding::Sound => match write_all(out, b"sound\n") {
            Ok(()) => End::Done,
            Err(_) => End::WriteFault,
        },
        Finding::Unsound(flaw) => write_flaw(flaw, out),
    }
}

/// Judges the log in the file of this name by a game.
fn audit_by_file<F: Files, K: Sink>(
    alloc: Global,
    game: &Game,
    name: &str,
    files: &mut F,
    out: &mut K,
) -> End
    requires { MaySelect (F.state files.old) name.now }
    ensures { EndsSteps (Reads (file LogKind name.now) (audit_steps game.now)) (F.state files.old) (F.state files.new) (K.state out.old) (K.state out.new) result }
{
    match read_value::<Log, F>(alloc, files, name) {
        Ok(log) => judge(alloc, game, &log, out),
        Err(refusal) => End::Refused(refusal),
    }
}

/// Judges the log of the second file by the game of the first. It reads the log only if the game is not refused.
pub(crate) fn audit_files<F: Files, K: Sink>(
    alloc: Global,
    game: &str,
    log: &str,
    files: &mut F,
    out: &mut K,
) -> End
    requires { IfSome (F.state files.old).names (λ names. (names ≡ []) × (length game.now ≤ NAME_BYTES) × (length log.now ≤ NAME_BYTES)) }
    ensures { EndsBatch (commands.Audit game.now log.now) (F.state files.old) (F.state files.new) (K.state out.old) (K.state out.new) result }
{
    match read_value::<Game, F>(alloc, files, game) {
        Ok(game) => audit_by_file(alloc, &game, log, files, out),
        Err(refusal) => End::Refused(refusal),
    }
}
