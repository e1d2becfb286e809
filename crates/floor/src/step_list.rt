ghost use Rattle.std.specs.Prelude.{◌≡◌, List, [], ◌∷◌, ◌++◌};
ghost use base.Fml.{ftrue};
ghost use Rattle.floor.specs.Steps.{Step};

use std::marker::Model;
use tac_base::{Call, Good};

/// The steps of a desk, in the order in which it took them. It occupies no bytes: only clauses read it.
#[derive(Drop)]
pub(crate) struct StepList {
    pub(crate) ghost items: { List Step },
}

impl Model for StepList {
    ghost also_owns = { λ _. ftrue };
}

impl StepList {
    /// Returns a list without steps.
    pub(crate) fn new() -> StepList
        ensures { result.items ≡ [] }
    {
        StepList {}
    }

    /// Returns these steps and one more.
    pub(crate) fn with(&self) -> StepList
        ghost step: { Step }
        ensures { result.items ≡ self.now.items ++ step ∷ [] }
    {
        StepList {}
    }

    /// Does the same for a step that a call at a good determines.
    pub(crate) fn with_call(&self, _good: &Good, _call: &Call) -> StepList
        ghost step: { Step }
        ensures { result.items ≡ self.now.items ++ step ∷ [] }
    {
        self.with()
    }
}

// A step list owns nothing.
unsafe impl Send for StepList {}
