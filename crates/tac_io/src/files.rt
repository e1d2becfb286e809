// Files of the outside.
ghost use Rattle.std.specs.Prelude.{◌≡◌, ◌∷◌, [], ◌<◌, ◌≤◌, length, IsTrue, IfSome, OnOk, OnErr, IsSome, MatchResult};
ghost use Rattle.tac_io.specs.{HasCause, FilesState, MaySelect, Reads, known_then};

use crate::Failed;

/// Files that a caller selects by name and then reads from the start.
pub trait Files {
    /// The bytes of the file with each name, and the names that `select` was called with, both if
    /// known; whether a file is selected, and what is left to read of it, if known; and the count of
    /// faults, which never falls and stays at its maximum.
    ghost state: { Self → FilesState };

    /// Selects a file, at its start. It is a fault if no file has the name. After a fault the
    /// file that was selected before is still selected, at the same position.
    fn select(&mut self, name: &str) -> Result<(), Failed>
        requires { MaySelect (state self.old) name.now }
        ensures selected { MatchResult result
            (λ _. IsTrue (state self.new).selected)
            (λ _. (state self.new).selected ≡ (state self.old).selected) }
        ensures found { OnOk result (IfSome (state self.old).content (λ files.
            IsSome (files name.now) × ((state self.new).left ≡ files name.now))) }
        ensures kept { OnErr result ((state self.new).left ≡ (state self.old).left) }
        ensures names { (state self.new).names ≡ known_then (state self.old).names (name.now ∷ []) }
        ensures content { (state self.new).content ≡ (state self.old).content }
        ensures cause { HasCause (state self.old).faults (state self.new).faults result };

    /// Reads some of the next bytes of the selected file, and returns how many: at least one, or 0
    /// at its end. After a fault the file is at the same position.
    fn read(&mut self, into: &mut [u8]) -> Result<usize, Failed>
        requires room { 0 < length into.old }
        requires selected { IsTrue (state self.old).selected }
        ensures bytes { Reads (state self.old).left (state self.new).left result into.new }
        ensures selected { IsTrue (state self.new).selected }
        ensures names { (state self.new).names ≡ (state self.old).names }
        ensures content { (state self.new).content ≡ (state self.old).content }
        ensures cause { HasCause (state self.old).faults (state self.new).faults result };

    /// Returns how many calls have failed.
    fn faults(&self) -> u64
        ensures { result ≡ (state self.now).faults };
}
