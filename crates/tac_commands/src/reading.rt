// Reads the files of commands.
ghost use Rattle.std.specs.Prelude.{◌≡◌, ◌<◌, ◌≤◌, ◌⊎◌, [], ◌∷◌, length, Ok, Err, IfOk, IfErr, OnOk};
ghost use Rattle.tac_commands.specs.{LINK_BYTES, IsFile, MaySelect, IsAtEnd, known_then, GameFault, most_bytes, read_as, refusal_of, IsNotRead, IsFileRead};
ghost use Rattle.tac_commands.specs.declared.file_kinds.FileKind.TheVariants.{Bytes};
ghost use Rattle.tac_commands.specs.declared.refusals.Refusal.TheVariants.{Memory};

use crate::file_kinds::FileKind;
use crate::refusals::Refusal;
use game_text::{Account, Game, GameFault, read_account, read_game};
use log_reader::{Log, LogFault, read_log};
use std::alloc::Global;
use tac_io::{FileFault, Files, read_file};

/// Returns the bytes of the file of this name, at most the limit of its kind, or the refusal to write in their place.
pub(crate) fn read_bytes<F: Files>(
    alloc: Global,
    files: &mut F,
    name: &str,
    kind: FileKind,
) -> Result<Vec<u8>, Refusal>
    requires { MaySelect (F.state files.old) name.now }
    ensures whole { IfOk result (λ bytes. IsFile (F.state files.old).content name.now bytes.items) }
    ensures within { IfOk result (λ bytes. length bytes.items ≤ most_bytes kind) }
    ensures end { OnOk result (IsAtEnd (F.state files.new).left) }
    ensures quiet { OnOk result ((F.state files.new).faults ≡ (F.state files.old).faults) }
    ensures unread { IfErr result (IsNotRead (F.state files.old) (F.state files.new) kind name.now) }
    ensures names { (F.state files.new).names ≡ known_then (F.state files.old).names (name.now ∷ []) }
    ensures content { (F.state files.new).content ≡ (F.state files.old).content }
{
    match read_file(alloc, files, name, kind.most_bytes()) {
        Ok(bytes) => Ok(bytes),
        Err(FileFault::Failed) => Err(Refusal::ReadFault),
        Err(FileFault::TooLong) => Err(kind.refusal(GameFault::TooLong)),
        Err(FileFault::Memory) => Err(Refusal::Memory),
    }
}

/// Returns the bytes of the file of this name, whatever they are, or the refusal to write in their place. It selects the file once.
pub(crate) fn read_link<F: Files>(
    alloc: Global,
    files: &mut F,
    name: &str,
) -> Result<Vec<u8>, Refusal>
    requires { MaySelect (F.state files.old) name.now }
    ensures value { IfOk result (λ bytes. IsFileRead (F.state files.old).content Bytes name.now bytes.items) }
    ensures short { IfOk result (λ bytes. length bytes.items ≤ LINK_BYTES) }
    ensures quiet { OnOk result ((F.state files.new).faults ≡ (F.state files.old).faults) }
    ensures unread { IfErr result (IsNotRead (F.state files.old) (F.state files.new) Bytes name.now) }
    ensures names { (F.state files.new).names ≡ known_then (F.state files.old).names (name.now ∷ []) }
    ensures content { (F.state files.new).content ≡ (F.state files.old).content }
{
    match read_bytes(alloc, files, name, FileKind::Bytes) {
        Ok(bytes) => Ok(bytes),
        Err(refusal) => Err(refusal),
    }
}

/// A value that is read from a whole file.
pub trait FileValue: Sized + Drop {
    ghost use Rattle.tac_commands.specs.declared.file_kinds.FileKind.{FileKind};
    ghost use Rattle.tac_commands.specs.FileKinds.{Value};

    // the kind of the file
    ghost kind: { FileKind };

    // the value, by the definition of reading
    ghost seen: { Self → Value kind };

    /// The kind of the file.
    fn kind() -> FileKind
        ensures { result ≡ kind };

    /// Returns the value that the bytes of such a file hold, or the refusal to write in its place.
    fn read(alloc: Global, bytes: &[u8]) -> Result<Self, Refusal>
        ensures value { IfOk result (λ value. read_as kind bytes.now ≡ Ok (seen value)) }
        ensures refused { IfErr result (λ refusal. (refusal ≡ Memory) ⊎ ((fault : GameFault) × (refusal ≡ refusal_of kind fault) × (read_as kind bytes.now ≡ Err fault))) };
}

impl FileValue for Game {
    ghost use Rattle.tac_commands.specs.declared.file_kinds.FileKind.TheVariants.{Game as GameKind};

    ghost kind = { GameKind };

    ghost seen = { λ game. game };

    fn kind() -> FileKind {
        FileKind::Game
    }

    fn read(_alloc: Global, bytes: &[u8]) -> Result<Game, Refusal> {
        match read_game(bytes) {
            Ok(game) => Ok(game),
            Err(fault) => Err(FileKind::Game.refusal(fault)),
        }
    }
}

impl FileValue for Account {
    ghost use Rattle.tac_commands.specs.declared.file_kinds.FileKind.TheVariants.{Account as AccountKind};

    ghost kind = { AccountKind };

    ghost seen = { λ account. account };

    fn kind() -> FileKind {
        FileKind::Account
    }

    fn read(_alloc: Global, bytes: &[u8]) -> Result<Account, Refusal> {
        match read_account(bytes) {
            Ok(account) => Ok(account),
            Err(fault) => Err(FileKind::Account.refusal(fault)),
        }
    }
}

impl FileValue for Log {
    ghost use Rattle.tac_commands.specs.declared.file_kinds.FileKind.TheVariants.{Log as LogKind};

    ghost kind = { LogKind };

    ghost seen = { λ log. log };

    fn kind() -> FileKind {
        FileKind::Log
    }

    fn read(alloc: Global, bytes: &[u8]) -> Result<Log, Refusal> {
        match read_log(alloc, bytes) {
            Ok(log) => Ok(log),
            // A log has one reason for a bad line.
            Err(LogFault::Line { line }) => Err(Refusal::TextLine { line, reason: 1 }),
            Err(LogFault::TooLong) => Err(Refusal::TextTooLong),
            Err(LogFault::Memory) => Err(Refusal::Memory),
        }
    }
}

/// Returns the value in the file of this name, which it reads to the end, or the refusal to write in its place. It selects the file once. If the
/// selected names are known, there are fewer than 128 of them, and this name has at most 1024 bytes.
pub fn read_value<T: FileValue, F: Files>(
    alloc: Global,
    files: &mut F,
    name: &str,
) -> Result<T, Refusal>
    requires { MaySelect (F.state files.old) name.now }
    ensures value { IfOk result (λ value. IsFileRead (F.state files.old).content T.kind name.now (T.seen value)) }
    ensures end { OnOk result (IsAtEnd (F.state files.new).left) }
    ensures quiet { OnOk result ((F.state files.new).faults ≡ (F.state files.old).faults) }
    ensures unread { IfErr result (IsNotRead (F.state files.old) (F.state files.new) T.kind name.now) }
    ensures names { (F.state files.new).names ≡ known_then (F.state files.old).names (name.now ∷ []) }
    ensures content { (F.state files.new).content ≡ (F.state files.old).content }
{
    match read_bytes(alloc, files, name, T::kind()) {
        Ok(bytes) => T::read(alloc, bytes.as_slice()),
        Err(refusal) => Err(refusal),
    }
}
