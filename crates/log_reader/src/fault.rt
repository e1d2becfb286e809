ghost use Rattle.std.specs.Prelude.{◌≡◌};
ghost use Rattle.log_reader.specs.Faults.{log_fault};

use text_forms::BadLine;

/// Why a text is not read as a log. Nothing is returned.
#[derive(Clone, Copy, Debug, PartialEq, Eq)]
pub enum LogFault {
    /// The first line, counted from 1, that fits no log.
    Line { line: u32 },
    /// The text has more than 67,108,864 bytes.
    TooLong,
    /// A memory allocation failed.
    Memory,
}

impl From<BadLine> for LogFault {
    ghost from_gives = { λ bad fault. fault ≡ log_fault bad };

    fn from(bad: BadLine) -> Self {
        LogFault::Line { line: bad.line }
    }
}
