// A ticker in memory that asks whether a tick is due.
ghost use Rattle.std.specs.Prelude.{◌≡◌};

use crate::{MemDue, MemLapse, Ticker};
use std::rt::Clock;
use std::sync::Wait;
use tac_base::Tick;

/// Decides whether a tick is due.
pub trait Look {
    /// Returns whether a tick is due; it may look for as long as it needs. `pace` is the pace in
    /// milliseconds, if one was set.
    fn is_due(&mut self, pace: Option<u16>, tick: Tick) -> bool;
}

/// A ticker in memory. At each wait it looks, and lapses if the tick is not due. Its pace is
/// known, and the ticks that it waited for are not.
#[derive(Drop)]
pub struct LookingTicker<L> {
    look: L,
    pace: Option<u16>,
    lapses: u64,
}

impl<L> LookingTicker<L> {
    ghost use Rattle.std.specs.Prelude.{None};

    /// Returns a ticker without a pace that has waited for no tick.
    pub fn new(look: L) -> LookingTicker<L>
        ensures { result ≡ record { look = look; pace = None; lapses = 0 } }
    {
        LookingTicker {
            look,
            pace: None,
            lapses: 0,
        }
    }
}

impl<L: Look> Ticker for LookingTicker<L> {
    ghost use Rattle.std.specs.Prelude.{None, Some};

    type Due = MemDue;

    type Lapse = MemLapse;

    ghost mark = { 1 };

    ghost due_tick = { λ due. due };

    ghost lapse_tick = { λ lapse. lapse };

    ghost state = { λ s. record { paced = Some s.pace; waited = None; faults = s.lapses } };

    fn pace(&mut self, milliseconds: u16) {
        self.pace = Some(milliseconds);
    }

    fn wait<R: Wait + Clock>(&mut self, _rt: &R, tick: Tick) -> Result<MemDue, MemLapse> {
        if self.look.is_due(self.pace, tick) {
            return Ok(MemDue { tick });
        }
        self.lapses = self.lapses.saturating_add(1);
        Err(MemLapse { tick })
    }

    fn late(&mut self, lapse: MemLapse) -> MemDue {
        let MemLapse { tick } = lapse;
        MemDue { tick }
    }

    fn faults(&self) -> u64 {
        self.lapses
    }
}
