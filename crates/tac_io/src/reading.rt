// Whole files.
ghost use Rattle.std.specs.Prelude.{◌≡◌, ◌<◌, ◌≤◌, ◌+◌, [], ◌∷◌, length, take, drop, vec_len, IsTrue, IfOk, OnOk, IsErrOf};
ghost use Rattle.tac_io.specs.{HasCause, MaySelect, IsAtEnd, Reads, known_then};
ghost use Rattle.tac_io.specs.Reading.{HasFileCause, IsFile, IsTooLong};

use crate::{Failed, Files};
use std::alloc::{AllocError, Global};

/// Why a file could not be read.
#[derive(Clone, Copy, Debug, PartialEq, Eq)]
pub enum FileFault {
    /// A call failed, and the files counted the fault.
    Failed,
    /// No call failed, and the file has more bytes than the limit.
    TooLong,
    /// A memory allocation failed.
    Memory,
}

impl From<Failed> for FileFault {
    ghost use Rattle.std.specs.Prelude.{◌≡◌};
    ghost use Rattle.tac_io.specs.declared.reading.FileFault.TheVariants.{Failed};

    ghost from_gives = { λ _ fault. fault ≡ Failed };

    fn from(_failed: Failed) -> FileFault {
        FileFault::Failed
    }
}

impl From<AllocError> for FileFault {
    ghost use Rattle.std.specs.Prelude.{◌≡◌};
    ghost use Rattle.tac_io.specs.declared.reading.FileFault.TheVariants.{Memory};

    ghost from_gives = { λ _ fault. fault ≡ Memory };

    fn from(_refused: AllocError) -> FileFault {
        FileFault::Memory
    }
}

/// How many bytes the first read asks for.
const FIRST_READ: usize = 65_536;

/// Returns all bytes of the file with that name, if at most `limit`. It selects the name once.
/// It returns `Failed` exactly if the files counted a fault in this call. `TooLong` means that they
/// did not and that the file has more than `limit` bytes. After success the file is at its end;
/// otherwise the contract leaves open which file is selected, and what is left of it.
pub fn read_file<F: Files>(
    alloc: Global,
    files: &mut F,
    name: &str,
    limit: usize,
) -> Result<Vec<u8>, FileFault>
    requires { MaySelect (F.state files.old) name.now }
    ensures whole { IfOk result (λ bytes. IsFile (F.state files.old).content name.now bytes.items) }
    ensures within { IfOk result (λ bytes. length bytes.items ≤ limit) }
    ensures end { OnOk result (IsAtEnd (F.state files.new).left) }
    ensures long { IsErrOf result FileFault.TooLong → IsTooLong (F.state files.old).content name.now limit }
    ensures names { (F.state files.new).names ≡ known_then (F.state files.old).names (name.now ∷ []) }
    ensures content { (F.state files.new).content ≡ (F.state files.old).content }
    ensures cause { HasFileCause (F.state files.old).faults (F.state files.new).faults result }
{
    files.select(name)?;
    let mut bytes = Vec::new(alloc);
    let mut filled = 0;
    loop {
        grow_to_read(&mut bytes, filled, limit)?;
        let count = read_at(files, &mut bytes, filled)?;
        if count == 0 {
            bytes.truncate(filled);
            return Ok(bytes);
        }
        filled += count;
        if filled > limit {
            return Err(FileFault::TooLong);
        }
    }
}

// Makes a full buffer at least twice as long, but at most one byte longer than the
// limit: a file that fills that byte is too long.
fn grow_to_read(bytes: &mut Vec<u8>, filled: usize, limit: usize) -> Result<(), AllocError>
    requires within { filled ≤ vec_len bytes.old }
    requires limited { vec_len bytes.old ≤ limit + 1 }
    requires going { filled ≤ limit }
    ensures room { OnOk result ((filled < vec_len bytes.new) × (vec_len bytes.new ≤ limit + 1)) }
    ensures front { take filled bytes.new.items ≡ take filled bytes.old.items }
{
    if filled < bytes.len() {
        return Ok(());
    }
    let twice = filled.max(FIRST_READ);
    let rest = limit - filled;
    let more = if twice < rest { twice } else { rest + 1 };
    bytes.reserve_exact(more)?;
    bytes.resize(filled + more, 0)
}

// Reads into the buffer, at index `at`.
fn read_at<F: Files>(files: &mut F, bytes: &mut [u8], at: usize) -> Result<usize, Failed>
    requires room { at < length bytes.old }
    requires selected { IsTrue (F.state files.old).selected }
    ensures front { take at bytes.new ≡ take at bytes.old }
    ensures within { IfOk result (λ n. at + n ≤ length bytes.new) }
    ensures given { Reads (F.state files.old).left (F.state files.new).left result (drop at bytes.new) }
    ensures selected { IsTrue (F.state files.new).selected }
    ensures names { (F.state files.new).names ≡ (F.state files.old).names }
    ensures content { (F.state files.new).content ≡ (F.state files.old).content }
    ensures cause { HasCause (F.state files.old).faults (F.state files.new).faults result }
{
    files.read(&mut bytes[at..])
}
