ghost use Rattle.std.specs.Prelude.{◌≡◌};
ghost use Rattle.game_text.specs.Faults.{game_fault};

use text_forms::BadLine;

/// Why a game file or an account file is refused.
#[derive(Clone, Copy, Debug, PartialEq, Eq)]
pub enum GameFault {
    /// The first bad line, counted from 1, with the number of the first reason that applies to it, 1 to 7.
    Line { line: u32, reason: u8 },
    /// The text has more bytes than its limit: 1,048,576 for a game file, 67,108,864 for an account file.
    TooLong,
}

impl From<BadLine> for GameFault {
    ghost from_gives = { λ bad fault. fault ≡ game_fault bad };

    fn from(bad: BadLine) -> Self {
        GameFault::Line {
            line: bad.line,
            reason: bad.reason.number(),
        }
    }
}
