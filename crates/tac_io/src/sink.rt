// A sink of the outside.
ghost use Rattle.std.specs.Prelude.{◌≡◌, ◌<◌, length};
ghost use Rattle.tac_io.specs.{HasCause, SinkState, NotesFailure, Takes};

use crate::Failed;

/// What bytes are written to.
pub trait Sink {
    /// The bytes that it took, if known; the count of faults, which never falls and
    /// stays at its maximum; and the positions at which its writes failed, if known.
    ghost state: { Self → SinkState };

    /// Writes some of the first bytes of a piece, and returns how many: at least one. It is a fault
    /// if none is taken. After a fault no byte of the piece was taken.
    fn write(&mut self, piece: &[u8]) -> Result<usize, Failed>
        requires { 0 < length piece.now }
        ensures bytes { Takes (state self.old).taken (state self.new).taken result piece.now }
        ensures cause { HasCause (state self.old).faults (state self.new).faults result }
        ensures noted { NotesFailure (state self.old).taken (state self.old).failures (state self.new).failures result };

    /// Returns how many calls have failed.
    fn faults(&self) -> u64
        ensures { result ≡ (state self.now).faults };
}
