// Holds the part of a script's line that was read so far.
ghost use Rattle.std.specs.Prelude.{◌≡◌, ◌+◌, ◌<◌, ◌≤◌, ◌++◌, ℕ, [], List, length, MatchOption};
ghost use Rattle.tac_base.specs.declared.limits.TheConstants.{LINE_BYTES};

use tac_base::Text;
use tac_base::limits::LINE_BYTES;

/// The most bytes of a line of a game script: an agent, a space and a request.
const LONGEST_LINE: usize = LINE_BYTES as usize + 2;

/// The bytes of a line so far, or the fact that it is longer than any good line.
#[derive(Drop)]
pub(crate) struct HeldLine {
    text: Text,
    long: bool,
    ghost short: { length text ≤ LINE_BYTES + 2 },
}

impl HeldLine {
    ghost use Rattle.script_run.specs.HeldLines.{IsHeld, longest_line};

    /// Holds nothing.
    pub(crate) fn new() -> HeldLine
        ensures { IsHeld [] result }
    {
        HeldLine {
            text: Text::new(),
            long: false,
        }
    }

    /// Adds the next bytes of the line.
    pub(crate) fn join(&mut self, bytes: &[u8])
        ensures { (rest : List ℕ) → IsHeld rest self.old → IsHeld (rest ++ bytes.now) self.new }
    {
        let held = self.text.as_slice().len();
        if self.long || bytes.len() > LONGEST_LINE - held {
            self.long = true;
        } else {
            self.text.push_bytes(bytes);
        }
    }

    /// The line, if it is not longer than any good line.
    pub(crate) fn line(&self) -> Option<&[u8]>
        ensures { (rest : List ℕ) → IsHeld rest self.now → MatchOption result (longest_line < length rest) (λ line. line.now ≡ rest) }
    {
        if self.long {
            None
        } else {
            Some(self.text.as_slice())
        }
    }

    /// Holds nothing, before the next line.
    pub(crate) fn clear(&mut self)
        ensures { IsHeld [] self.new }
    {
        self.text.clear();
        self.long = false;
    }
}
