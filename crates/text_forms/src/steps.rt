ghost use Rattle.std.specs.Prelude.{◌≡◌, ◌<◌, length};
ghost use Rattle.text_forms.specs.Steps as steps;

use crate::{BadLine, TextLines};

/// A part of a text that occurs several times, numbered from 0.
pub trait Part {
    type Value: Drop;

    ghost use Rattle.std.specs.Prelude.{ℕ, Result};
    ghost use Rattle.text_forms.specs.Lines.{Remaining};
    ghost use Rattle.text_forms.specs.declared.lines.BadLine.{BadLine};

    ghost gives: { Self → ℕ → Remaining → Result (Self.Value × Remaining) BadLine };

    /// Reads the part with this number, and returns it with the lines after it.
    fn read<'a>(
        &self,
        number: u8,
        lines: TextLines<'a>,
    ) -> Result<(Self::Value, TextLines<'a>), BadLine>
        ensures { result ≡ gives self.now number lines.entry };
}

/// Reads a part into each of at most 255 values, and returns the lines after them.
/// After a bad line, the values before it have been written.
pub fn repeat<'a, P: Part>(
    part: &P,
    values: &mut [P::Value],
    lines: TextLines<'a>,
) -> Result<TextLines<'a>, BadLine>
    requires { length values.old < 256 }
    ensures { steps.WritesParts (steps.repeat (length values.old) 0 (P.gives part.now) lines.entry) values.new result }
{
    let mut left = lines;
    for number in 0..values.len() {
        let (value, after) = part.read(number as u8, left)?;
        values[number] = value;
        left = after;
    }
    Ok(left)
}
