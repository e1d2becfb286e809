// Reads parts of a log that occur several times.
ghost use Rattle.std.specs.Prelude.{◌≤◌};
ghost use Rattle.text_forms.specs.Steps as steps;
ghost use Rattle.log_reader.specs.LogReading as reading;
ghost use Rattle.log_reader.specs.Faults.{or_log_fault, IsLogReading};

use crate::LogFault;
use crate::log_lines::LogLines;
use std::alloc::Global;

/// A part of a log that occurs several times, numbered from 0.
pub(crate) trait LogPart {
    type Value: Drop;

    ghost use Rattle.std.specs.Prelude.{ℕ, ◌<◌, Result};
    ghost use Rattle.text_forms.specs.Lines.{Remaining};
    ghost use Rattle.text_forms.specs.declared.lines.BadLine.{BadLine};
    ghost use Rattle.log_reader.specs.Faults.{or_log_fault, IsLogReading};

    ghost gives: { Self → ℕ → Remaining → Result (Self.Value × Remaining) BadLine };

    /// The most parts that there may be.
    ghost most: { Self → ℕ };

    /// Reads the part of this number, and returns the lines after it.
    fn read<'a>(
        &self,
        alloc: Global,
        number: u32,
        lines: LogLines<'a>,
    ) -> Result<(Self::Value, LogLines<'a>), LogFault>
        requires { number < most self.now }
        ensures { IsLogReading (λ x. x) result (or_log_fault (gives self.now number lines.entry)) };
}

/// Reads this many parts in order, and returns the lines after them.
pub(crate) fn read_all<'a, P: LogPart>(
    alloc: Global,
    part: &P,
    count: u32,
    lines: LogLines<'a>,
) -> Result<(Vec<P::Value>, LogLines<'a>), LogFault>
    requires { count ≤ P.most part.now }
    ensures { IsLogReading (λ x. (x.0.items, x.1)) result (or_log_fault (steps.repeat count 0 (P.gives part.now) lines.entry)) }
{
    let mut values = Vec::new(alloc);
    let mut left = lines;
    for number in 0..count {
        let (value, after) = part.read(alloc, number, left)?;
        if values.push(value).is_err() {
            return Err(LogFault::Memory);
        }
        left = after;
    }
    Ok((values, left))
}

/// Reads parts as long as the next line begins with a word, and returns the lines after them. If there are too many, the
/// first extra one is bad.
pub(crate) fn read_while<'a, P: LogPart>(
    alloc: Global,
    part: &P,
    word: &[u8],
    most: u32,
    lines: LogLines<'a>,
) -> Result<(Vec<P::Value>, LogLines<'a>), LogFault>
    requires { most ≤ P.most part.now }
    ensures { IsLogReading (λ x. (x.0.items, x.1)) result (or_log_fault (reading.as_long_as word.now (P.gives part.now) most 0 lines.entry)) }
{
    let mut values = Vec::new(alloc);
    let mut left = lines;
    for number in 0..most {
        if !left.begins(word) {
            return Ok((values, left));
        }
        let (value, after) = part.read(alloc, number, left)?;
        if values.push(value).is_err() {
            return Err(LogFault::Memory);
        }
        left = after;
    }
    let left = left.without(word)?;
    Ok((values, left))
}
