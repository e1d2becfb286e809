// How a command ends, and how its end is reported.
ghost use Rattle.std.specs.Prelude.{◌≡◌};
ghost use Rattle.tac_commands.specs.{code_number, Finishes};

use crate::code::Code;
use crate::refusals::Refusal;
use tac_io::{Sink, write_all};

/// How a command ends.
#[derive(Clone, Copy, Debug, PartialEq, Eq)]
pub enum End {
    /// Its text was written.
    Done,
    /// It wrote a text that reports an unsound log.
    Unsound,
    /// A write failed, so the text was not completely written.
    WriteFault,
    /// This is to be written in place of the text, or after the first part of it.
    Refused(Refusal),
}

/// Prints the refusal, if the command ended with one, and returns the exit code. After a failed write it writes nothing.
pub fn finish<K: Sink>(out: &mut K, end: End) -> Code
    ensures { Finishes end (K.state out.old) (K.state out.new) (code_number result) }
{
    match end {
        End::Done => Code::Success,
        End::Unsound => Code::Unsound,
        End::WriteFault => Code::WriteFault,
        End::Refused(refusal) => match write_all(out, refusal.text().as_slice()) {
            Ok(()) => refusal.code(),
            Err(_) => Code::WriteFault,
        },
    }
}
