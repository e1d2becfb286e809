// Why a script was not run to its end.
ghost use Rattle.std.specs.Prelude.{◌≡◌};
ghost use Rattle.script_run.specs.ScriptLines.{script_reason_number};

/// Why a line of a script is bad. A script's fault shows the reason's number.
#[derive(Clone, Copy, Debug, PartialEq, Eq)]
pub enum ScriptReason {
    /// 1: the line has none of the forms of its script.
    Form,
    /// 2 in a hotel script: the points of a bid are refused.
    Points,
    /// 2 in a game script: the agent had ended its session.
    Ended,
    /// 3: the last line has no line end.
    NoLineEnd,
    /// 4: one line too many in all, in a hotel script; one tick, or one line of the agent, too many, in a game script.
    TooMany,
    /// 5 in a hotel script: one line too many of its caller.
    TooManyOfCaller,
}

impl ScriptReason {
    /// The reason's number, 1 to 5.
    pub fn number(self) -> u8
        ensures { result ≡ script_reason_number self }
    {
        match self {
            ScriptReason::Form => 1,
            ScriptReason::Points | ScriptReason::Ended => 2,
            ScriptReason::NoLineEnd => 3,
            ScriptReason::TooMany => 4,
            ScriptReason::TooManyOfCaller => 5,
        }
    }
}

/// Why a script was not run, or not to its end.
#[derive(Clone, Copy, Debug, PartialEq, Eq)]
pub enum ScriptFault {
    /// The first bad line, counted from 1, and the first reason that applies to it: 1 to 5 in a hotel script, 1 to 4 in a game script.
    /// This project defines the two lists, which differ. Nothing was written.
    Line { line: u32, reason: u8 },
    /// The script has more than 67,108,864 bytes. Nothing was written.
    TooLong,
    /// A write failed, and the sink counted it. The first bytes of the text were written, or none, but not all.
    Failed,
    /// A memory allocation failed. Nothing was written or, if a game was played, its replies and the first part of its log were.
    Memory,
}

/// Why a game that is played line by line did not reach its end, or its log was not written. Unless a memory allocation failed at the start, the
/// replies to all earlier lines were written.
#[derive(Clone, Copy, Debug, PartialEq, Eq)]
pub enum StepFault {
    /// The first bad line, counted from 1, and the first reason, 1 to 4, that applies to it.
    Line { line: u32, reason: u8 },
    /// The script has more than 67,108,864 bytes, and no bad line within them.
    TooLong,
    /// A read failed, and the files counted it.
    Unread,
    /// A write failed, and the sink counted it. The first bytes of the text were written, or none, but not all.
    Unwritten,
    /// A memory allocation failed. Nothing was read or written, or all but the last part of the log was written.
    Memory,
}

/// Why a call that writes nothing did not play a game.
#[derive(Clone, Copy, Debug, PartialEq, Eq)]
pub enum QuietFault {
    /// The first bad line, counted from 1, and the first reason, 1 to 4, that applies to it.
    Line { line: u32, reason: u8 },
    /// The script has more than 67,108,864 bytes.
    TooLong,
    /// A memory allocation failed.
    Memory,
}
