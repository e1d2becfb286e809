// The refusals that are written in place of a command's text.
ghost use Rattle.std.specs.Prelude.{◌≡◌, ◌≢◌};
ghost use Rattle.tac_commands.specs.Codes.{code_number};
ghost use Rattle.tac_commands.specs.Outcomes as outcomes;

use crate::code::Code;
use crate::numbered_lines::{numbered, plain};
use tac_base::Text;

/// What is written in place of a command's text.
#[derive(Clone, Copy, Debug, PartialEq, Eq)]
pub enum Refusal {
    /// The words are not a command.
    Usage,
    /// The first bad line of a game file, counted from 1, and the first reason that applies to it.
    GameLine { line: u32, reason: u8 },
    /// A game file has more bytes than its limit.
    GameTooLong,
    /// A file is missing, or a read of it failed.
    ReadFault,
    /// The links failed.
    LinkFault,
    /// A memory allocation failed.
    Memory,
    /// The first bad line of a script, an account or a log, counted from 1, and the first reason that applies to it.
    TextLine { line: u32, reason: u8 },
    /// A script, an account or a log has more bytes than its limit.
    TextTooLong,
}

impl Refusal {
    /// The exit code of the refusal.
    pub(crate) fn code(&self) -> Code
        ensures value { code_number result ≡ (outcomes.refusal_end self.now).0 }
        ensures no_write_fault { code_number result ≢ 4 }
    {
        match self {
            Refusal::Usage => Code::Usage,
            Refusal::GameLine { .. } | Refusal::GameTooLong => Code::GameRefused,
            Refusal::ReadFault => Code::ReadFault,
            Refusal::LinkFault => Code::LinkFault,
            Refusal::Memory => Code::Memory,
            Refusal::TextLine { .. } | Refusal::TextTooLong => Code::TextRefused,
        }
    }

    /// The line that reports the refusal.
    pub(crate) fn text(&self) -> Text
        ensures { result ≡ (outcomes.refusal_end self.now).1 }
    {
        match self {
            Refusal::Usage => plain(b"usage\n"),
            Refusal::GameLine { line, reason } => numbered(b"game", *line, u32::from(*reason)),
            Refusal::GameTooLong => plain(b"game too long\n"),
            Refusal::ReadFault => plain(b"fault read\n"),
            Refusal::LinkFault => plain(b"fault links\n"),
            Refusal::Memory => plain(b"memory\n"),
            Refusal::TextLine { line, reason } => numbered(b"text", *line, u32::from(*reason)),
            Refusal::TextTooLong => plain(b"text too long\n"),
        }
    }
}
