// Which calls of an object in memory fail.
ghost use Rattle.std.specs.Prelude.{◌≡◌, ◌↔◌, IsTrue};
ghost use Rattle.tac_io.specs.Calls.{IsNextToFail, no_calls_yet, one_call_more};
ghost use Rattle.tac_io.specs.Counts.{Rose};

use crate::Failed;
use std::marker::Model;

/// The calls that are to fail, counted from 1; how many were made; and how many failed.
#[derive(Drop)]
pub(crate) struct Faults {
    failing: Vec<u64>,
    made: u64,
    faults: u64,
}

impl Model for Faults {
    ghost use Rattle.tac_io.specs.Calls.{Calls};

    ghost Value = { Calls };

    ghost view = { λ s. record { failing = s.failing.items; made = s.made; faults = s.faults } };
}

impl Faults {
    pub(crate) fn new(failing: Vec<u64>) -> Faults
        ensures { result ≡ no_calls_yet failing.items }
    {
        Faults {
            failing,
            made: 0,
            faults: 0,
        }
    }

    // Returns the number of the next call.
    pub(crate) fn next(&self) -> u64
        ensures { result ≡ one_call_more self.now.made }
    {
        self.made.saturating_add(1)
    }

    // Counts a call, and returns whether it is to fail.
    pub(crate) fn next_fails(&mut self) -> bool
        ensures fails { IsTrue result ↔ IsNextToFail self.old }
        ensures made { self.new ≡ record self.old { made = one_call_more self.old.made } }
    {
        self.made = self.next();
        self.failing.contains(&self.made)
    }

    // Counts a fault, and returns the error of the call.
    pub(crate) fn add(&mut self) -> Failed
        ensures rose { Rose self.old.faults self.new.faults }
        ensures counted { self.new ≡ record self.old { faults = one_call_more self.old.faults } }
    {
        self.faults = self.faults.saturating_add(1);
        Failed
    }

    pub(crate) fn count(&self) -> u64
        ensures { result ≡ self.now.faults }
    {
        self.faults
    }
}
