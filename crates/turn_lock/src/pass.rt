ghost use Rattle.std.specs.Prelude.{◌≡◌, ℕ, ◌+◌, ◌≤◌, [], length, None};

use crate::kept::Kept;
use crate::view::View;
use atomic_table::Seat;
use tac_base::Caller;

/// One caller's permission to take turns at a lock, up to a limit. It records the caller's calls so far and the boards that it saw.
#[derive(Drop)]
pub struct Pass<S: Kept> {
    pub(crate) seat: Seat<S, View<S, S::Setup, S::Entry>>,
    pub(crate) caller: Caller,
    pub(crate) left: u32,
    ghost live: { (seat.me.0.live ≡ 1) × (seat.me.0.caller ≡ caller) },
    ghost at_rest: { (seat.me.0.waits ≡ 0) × (seat.me.0.held ≡ None) × (seat.me.1 ≡ []) },
    ghost capped: { left + length seat.me.0.mine ≤ S.cap caller },
}

impl<S: Kept> Pass<S> {
    ghost use Rattle.std.specs.Prelude.{◌≡◌};
    ghost use Rattle.turn_lock.specs.Passes.{caller_of, turns_left};

    /// Returns how many turns the pass has left: its limit less the calls that it made.
    pub fn left(&self) -> u32
        ensures { result ≡ turns_left self.now }
    {
        self.left
    }

    /// Returns the caller of the pass.
    pub fn caller(&self) -> Caller
        ensures { result ≡ caller_of self.now }
    {
        self.caller
    }
}
