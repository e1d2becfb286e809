ghost use Rattle.std.specs.Prelude.{◌≡◌, ℕ, List, [], ◌∷◌, ◌++◌};
ghost use base.Fml.{ftrue};

use std::marker::Model;

/// The number of bytes before each call that failed, in order. It has size 0: only contracts
/// use it.
#[derive(Drop)]
pub(crate) struct Failures {
    pub(crate) ghost places: { List ℕ },
}

impl Model for Failures {
    ghost also_owns = { λ _. ftrue };
}

impl Failures {
    /// Returns the failures if no call has failed.
    pub(crate) fn none() -> Failures
        ensures { result.places ≡ [] }
    {
        Failures {}
    }

    /// Returns these failures and one more, at this many bytes.
    pub(crate) fn with(&self, _bytes: &usize) -> Failures
        ensures { result.places ≡ self.now.places ++ _bytes.now ∷ [] }
    {
        Failures {}
    }
}

// It owns nothing.
unsafe impl Send for Failures {}
