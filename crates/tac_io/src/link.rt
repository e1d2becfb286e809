// A link of the outside.
ghost use Rattle.std.specs.Prelude.{◌≡◌, ◌<◌, length, take, MatchResult};
ghost use Rattle.tac_io.specs.{HasCause, ReadsNothing, SendsNothing, LinkState, NotesFailure, Reads, Takes, known_then};

use crate::Failed;

/// A connection to an agent, with a count of faults for its reads and one for its writes.
pub trait Link {
    /// The bytes that were read from it, those that are left to read and those that it was
    /// sent, if known; the counts of read and write faults, which never fall and stay
    /// at their maximum; and the positions at which its reads and writes failed, if known.
    ghost state: { Self → LinkState };

    /// Reads some of the next bytes, and returns how many: at least one, or 0 at the end. After a
    /// fault no byte was taken.
    fn read(&mut self, into: &mut [u8]) -> Result<usize, Failed>
        requires { 0 < length into.old }
        ensures bytes { Reads (state self.old).left (state self.new).left result into.new }
        ensures taken { MatchResult result
            (λ n. (state self.new).taken ≡ known_then (state self.old).taken (take n into.new))
            (λ _. (state self.new).taken ≡ (state self.old).taken) }
        ensures cause { HasCause (state self.old).reads (state self.new).reads result }
        ensures noted { NotesFailure (state self.old).taken (state self.old).read_failures (state self.new).read_failures result }
        ensures sent { SendsNothing (state self.old) (state self.new) };

    /// Sends some of the first bytes of a piece, and returns how many: at least one. It is a fault
    /// if none is taken. After a fault no byte of the piece was sent.
    fn write(&mut self, piece: &[u8]) -> Result<usize, Failed>
        requires { 0 < length piece.now }
        ensures bytes { Takes (state self.old).sent (state self.new).sent result piece.now }
        ensures cause { HasCause (state self.old).writes (state self.new).writes result }
        ensures noted { NotesFailure (state self.old).sent (state self.old).write_failures (state self.new).write_failures result }
        ensures read { ReadsNothing (state self.old) (state self.new) };

    /// Returns how many reads have failed.
    fn faults(&self) -> u64
        ensures { result ≡ (state self.now).reads };

    /// Returns how many writes have failed.
    fn write_faults(&self) -> u64
        ensures { result ≡ (state self.now).writes };
}
