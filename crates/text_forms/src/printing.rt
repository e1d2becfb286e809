ghost use Rattle.std.specs.Prelude.{◌≡◌, ◌<◌, ◌++◌, length, OnOk};
ghost use Rattle.text_forms.specs.{text_of, lines_of_parts};

use std::alloc::AllocError;

/// A part of a text that is printed several times, numbered from 0.
pub trait PrintedPart {
    type Value;

    ghost use Rattle.std.specs.Prelude.{ℕ, List};

    ghost lines: { Self → ℕ → Self.Value → List (List ℕ) };

    /// Appends the lines of the part with this number. After an error the text may end within them.
    fn print(&self, number: u8, value: &Self::Value, out: &mut Vec<u8>) -> Result<(), AllocError>
        ensures { OnOk result (out.new.items ≡ out.old.items ++ text_of (lines self.now number value.now)) };
}

/// Appends the lines of at most 255 parts. After an error the text may end within them.
pub fn print_parts<P: PrintedPart>(
    part: &P,
    values: &[P::Value],
    out: &mut Vec<u8>,
) -> Result<(), AllocError>
    requires { length values.now < 256 }
    ensures { OnOk result (out.new.items ≡ out.old.items ++ text_of (lines_of_parts (P.lines part.now) 0 values.now)) }
{
    for (number, value) in values.iter().enumerate() {
        part.print(number as u8, value, out)?;
    }
    Ok(())
}
