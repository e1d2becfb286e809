// Judges the log of a game by the game, and then by one link.
ghost use Rattle.std.specs.Prelude.{◌≡◌, ◌+◌, ◌<◌, ◌≤◌, [], ◌∷◌, ◌++◌, codes, length, IfSome};
ghost use Rattle.tac_commands.specs.{FILE_NAMES, LINK_BYTES, NAME_BYTES, MaySelect, MaySelectTwo, IsSound, dialect_in, link_file_steps, link_steps, vouch_steps, EndsBatch, EndsSteps, EndsUnasked, IsShortBatch, Reads, file};
ghost use Rattle.tac_commands.specs.Commands as commands;
ghost use Rattle.tac_commands.specs.declared.words.BatchCommand.TheVariants as batch;
ghost use Rattle.tac_commands.specs.declared.file_kinds.FileKind.TheVariants.{Bytes, Log as LogKind};
ghost use Rattle.tac_commands.specs.Ends.{Ends};
ghost use Rattle.tac_commands.specs.VouchingTexts as texts;

use crate::audit_command::write_flaw;
use crate::ends::End;
use crate::numbered_lines::{counted, numbered, plain};
use crate::reading::{read_link, read_value};
use crate::refusals::Refusal;
use crate::services::Form;
use agent_gate::LineDialect;
use game_text::Game;
use json_dialect::JsonDialect;
use link_audit::{Difference, KnownDialect, Vouching, vouch};
use log_audit::{Finding, audit_log};
use log_reader::Log;
use std::alloc::Global;
use tac_base::{Agent, Text, print_numeral};
use tac_io::{Files, Sink, write_all};

/// The line that reports the first difference between a log and a link.
fn difference_text(difference: Difference) -> Text
    ensures { result ≡ texts.difference_text difference }
{
    match difference {
        Difference::Seat => plain(b"unvouched seat\n"),
        Difference::Welcome => plain(b"unvouched welcome\n"),
        Difference::Line(line) => counted(b"unvouched line", line),
        Difference::Entry { good, position } => {
            numbered(b"unvouched entry", u32::from(good.get()), position)
        }
        Difference::Cash(position) => counted(b"unvouched cash", position),
        Difference::Cause => plain(b"unvouched cause\n"),
    }
}

/// A text, and how many replies say that the server had no memory to read the line, if any does, and a line end.
fn with_memory(mut text: Text, memory: u32) -> Text
    requires { length text ≤ 128 }
    ensures { result ≡ text ++ texts.memory_words memory ++ codes "\n" }
{
    if memory > 0 {
        text.push_bytes(b" memory ");
        print_numeral(u64::from(memory), &mut text);
        text.push(b'\n');
        text
    } else {
        text.push(b'\n');
        text
    }
}

/// The line that vouches for a link, all of whose lines, this many, have replies.
fn whole_text(agent: Agent, lines: u32, memory: u32) -> Text
    ensures { result ≡ texts.whole_text agent lines memory }
{
    let mut text = Text::new();
    text.push_bytes(b"vouched ");
    print_numeral(u64::from(agent.get()), &mut text);
    text.push_bytes(b" whole ");
    print_numeral(u64::from(lines), &mut text);
    with_memory(text, memory)
}

/// The line that vouches for a link up to this many replies, with the number of later lines that left a call or a reading.
fn cut_text(agent: Agent, lines: u32, after: u32, memory: u32) -> Text
    ensures { result ≡ texts.cut_text agent lines after memory }
{
    let mut text = Text::new();
    text.push_bytes(b"vouched ");
    print_numeral(u64::from(agent.get()), &mut text);
    text.push_bytes(b" cut ");
    print_numeral(u64::from(lines), &mut text);
    text.push(b' ');
    print_numeral(u64::from(after), &mut text);
    with_memory(text, memory)
}

/// Writes the result for a link.
fn write_vouching<K: Sink>(vouching: Vouching, out: &mut K) -> End
    ensures { Ends (λ outcome. outcome ≡ texts.vouching_outcome vouching) (K.state out.old) (K.state out.new) result }
{
    match vouching {
        Vouching::Whole {
            agent,
            lines,
            memory,
        } => {
            match write_all(out, whole_text(agent, lines, memory).as_slice()) {
                Ok(()) => End::Done,
                Err(_) => End::WriteFault,
            }
        }
        Vouching::Cut {
            agent,
            lines,
            after,
            memory,
        } => {
            match write_all(out, cut_text(agent, lines, after, memory).as_slice()) {
                Ok(()) => End::Done,
                Err(_) => End::WriteFault,
            }
        }
        Vouching::Not(difference) => {
            match write_all(out, difference_text(difference).as_slice()) {
                Ok(()) => End::Unsound,
                Err(_) => End::WriteFault,
            }
        }
    }
}

/// Judges a sound log by what a link asked and what it was sent, and writes the result.
fn judge_link<D: KnownDialect, K: Sink>(
    alloc: Global,
    game: &Game,
    log: &Log,
    dialect: &D,
    asked: &[u8],
    said: &[u8],
    out: &mut K,
) -> End
    requires sound { IsSound game.now log.now }
    requires short { length asked.now ≤ LINK_BYTES }
    ensures { EndsUnasked (link_steps game.now (D.form dialect.now) log.now asked.now said.now) (K.state out.old) (K.state out.new) result }
{
    match vouch(alloc, game, log, dialect, asked, said) {
        Ok(vouching) => write_vouching(vouching, out),
        Err(_) => End::Refused(Refusal::Memory),
    }
}

/// Judges a sound log by what a link asked, and by the file of what it was sent.
fn judge_said<D: KnownDialect, F: Files, K: Sink>(
    alloc: Global,
    game: &Game,
    log: &Log,
    dialect: &D,
    asked: &[u8],
    said: &str,
    files: &mut F,
    out: &mut K,
) -> End
    requires sound { IsSound game.now log.now }
    requires short { length asked.now ≤ LINK_BYTES }
    requires name { MaySelect (F.state files.old) said.now }
    ensures { EndsSteps (Reads (file Bytes said.now) (link_steps game.now (D.form dialect.now) log.now asked.now))
        (F.state files.old) (F.state files.new) (K.state out.old) (K.state out.new) result }
{
    match read_link(alloc, files, said) {
        Ok(said) => judge_link(alloc, game, log, dialect, asked, said.as_slice(), out),
        Err(refusal) => End::Refused(refusal),
    }
}

/// Judges a sound log by the two files of a link.
fn judge_files<D: KnownDialect, F: Files, K: Sink>(
    alloc: Global,
    game: &Game,
    log: &Log,
    dialect: &D,
    asked: &str,
    said: &str,
    files: &mut F,
    out: &mut K,
) -> End
    requires sound { IsSound game.now log.now }
    requires names { MaySelectTwo (F.state files.old) asked.now said.now }
    ensures { EndsSteps (link_file_steps game.now (D.form dialect.now) log.now asked.now said.now)
        (F.state files.old) (F.state files.new) (K.state out.old) (K.state out.new) result }
{
    match read_link(alloc, files, asked) {
        Ok(asked) => judge_said(
            alloc,
            game,
            log,
            dialect,
            asked.as_slice(),
            said,
            files,
            out,
        ),
        Err(refusal) => End::Refused(refusal),
    }
}

/// Judges a sound log by the two files of a link whose lines have this form.
fn judge_form<F: Files, K: Sink>(
    alloc: Global,
    game: &Game,
    log: &Log,
    asked: &str,
    said: &str,
    form: Form,
    files: &mut F,
    out: &mut K,
) -> End
    requires sound { IsSound game.now log.now }
    requires names { MaySelectTwo (F.state files.old) asked.now said.now }
    ensures { EndsSteps (link_file_steps game.now (dialect_in form) log.now asked.now said.now)
        (F.state files.old) (F.state files.new) (K.state out.old) (K.state out.new) result }
{
    match form {
        Form::Lines => judge_files(alloc, game, log, &LineDialect, asked, said, files, out),
        Form::Json => {
            judge_files(
                alloc,
                game,
                log,
                &JsonDialect::new(alloc),
                asked,
                said,
                files,
                out,
            )
        }
    }
}

/// Judges a log by its game, and by the two files of a link if it is sound.
fn vouch_log<F: Files, K: Sink>(
    alloc: Global,
    game: &Game,
    log: &Log,
    asked: &str,
    said: &str,
    form: Form,
    files: &mut F,
    out: &mut K,
) -> End
    requires { MaySelectTwo (F.state files.old) asked.now said.now }
    ensures { EndsSteps (vouch_steps game.now (dialect_in form) asked.now said.now log.now)
        (F.state files.old) (F.state files.new) (K.state out.old) (K.state out.new) result }
{
    match audit_log(alloc, game, log) {
        Ok(Finding::Sound) => judge_form(alloc, game, log, asked, said, form, files, out),
        Ok(Finding::Unsound(flaw)) => write_flaw(flaw, out),
        Err(_) => End::Refused(Refusal::Memory),
    }
}

/// Judges the log in the file of this name by a game, and by the two files of a link.
fn vouch_by_file<F: Files, K: Sink>(
    alloc: Global,
    game: &Game,
    log: &str,
    asked: &str,
    said: &str,
    form: Form,
    files: &mut F,
    out: &mut K,
) -> End
    requires { IfSome (F.state files.old).names (λ names. (length names + 2 < FILE_NAMES) × (length log.now ≤ NAME_BYTES) × (length asked.now ≤ NAME_BYTES)
        × (length said.now ≤ NAME_BYTES)) }
    ensures { EndsSteps (Reads (file LogKind log.now) (vouch_steps game.now (dialect_in form) asked.now said.now))
        (F.state files.old) (F.state files.new) (K.state out.old) (K.state out.new) result }
{
    match read_value::<Log, F>(alloc, files, log) {
        Ok(log) => vouch_log(alloc, game, &log, asked, said, form, files, out),
        Err(refusal) => End::Refused(refusal),
    }
}

/// Judges the log of the second file by the game of the first, and then by the link of the last two. It reads these only if the log is sound.
pub(crate) fn vouch_files<F: Files, K: Sink>(
    alloc: Global,
    game: &str,
    log: &str,
    asked: &str,
    said: &str,
    form: Form,
    files: &mut F,
    out: &mut K,
) -> End
    requires { IfSome (F.state files.old).names (λ names. (names ≡ []) × IsShortBatch (batch.Vouch game log asked said form)) }
    ensures { EndsBatch (commands.Vouch game.now log.now asked.now said.now form)
        (F.state files.old) (F.state files.new) (K.state out.old) (K.state out.new) result }
{
    match read_value::<Game, F>(alloc, files, game) {
        Ok(game) => vouch_by_file(alloc, &game, log, asked, said, form, files, out),
        Err(refusal) => End::Refused(refusal),
    }
}
