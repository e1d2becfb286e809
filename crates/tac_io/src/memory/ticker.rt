// A ticker in memory.
ghost use Rattle.std.specs.Prelude.{◌≡◌, ◌≤◌, [], None, IfOk, vec_capacity};
ghost use Rattle.tac_base.specs.declared.limits.TheConstants.{TICKS};
ghost use Rattle.tac_io.specs.Calls.{no_calls_yet};

use crate::Ticker;
use crate::memory::faults::Faults;
use std::alloc::{AllocError, Global};
use std::marker::Model;
use std::rt::Clock;
use std::sync::Wait;
use tac_base::Tick;
use tac_base::limits::TICKS;

/// A tick after its wait.
#[derive(Drop)]
pub struct MemDue {
    pub(crate) tick: Tick,
}

impl Model for MemDue {
    ghost use Rattle.std.specs.Prelude.{ℕ};

    ghost Value = { ℕ };

    ghost view = { λ due. due.tick };
}

/// A tick whose wait lapsed.
#[derive(Drop)]
pub struct MemLapse {
    pub(crate) tick: Tick,
}

impl Model for MemLapse {
    ghost use Rattle.std.specs.Prelude.{ℕ};

    ghost Value = { ℕ };

    ghost view = { λ lapse. lapse.tick };
}

/// A wait for a tick, with whether it lapsed and the pace at that moment, if one was set.
#[derive(Drop)]
struct MemWait {
    tick: Tick,
    lapsed: bool,
    pace: Option<u16>,
}

impl Model for MemWait {
    ghost use Rattle.std.specs.Prelude.{Some};
    ghost use Rattle.tac_io.specs.States.{TickWait};

    ghost Value = { TickWait };

    ghost view = { λ wait. record { tick = wait.tick; lapsed = wait.lapsed; paced = Some wait.pace } };
}

/// A ticker in memory, with room for 54 ticks. It does not wait, and lapses at listed waits.
#[derive(Drop)]
pub struct MemTicker {
    pace: Option<u16>,
    waited: Vec<MemWait>,
    faults: Faults,
    ghost room: { TICKS ≤ vec_capacity waited },
}

impl MemTicker {
    ghost use Rattle.tac_io.specs.MemTicker.{ticker_calls, ticker_pace, ticker_waited};

    /// Returns a ticker without a pace that has waited for no tick. `lapsing` lists the waits that
    /// are to lapse, counted from 1. If the ticks are waited for in order, those ticks lapse.
    pub fn new(alloc: Global, lapsing: Vec<u64>) -> Result<MemTicker, AllocError>
        ensures pace { IfOk result (λ ticker. ticker_pace ticker ≡ None) }
        ensures waited { IfOk result (λ ticker. ticker_waited ticker ≡ []) }
        ensures calls { IfOk result (λ ticker. ticker_calls ticker ≡ no_calls_yet lapsing.items) }
    {
        Ok(MemTicker {
            pace: None,
            waited: Vec::with_capacity(alloc, TICKS as usize)?,
            faults: Faults::new(lapsing),
        })
    }
}

impl Ticker for MemTicker {
    ghost use Rattle.std.specs.Prelude.{◌≡◌, ◌↔◌, ◌<◌, ◌++◌, ◌∷◌, [], Some, IsErr, MatchResult, is_err, length};
    ghost use Rattle.tac_io.specs.Calls.{IsNextToFail, after_call};
    ghost use Rattle.tac_io.specs.Counts.{HasCause};
    ghost use Rattle.tac_io.specs.MemTicker.{ticker_calls, ticker_pace, ticker_waited};

    type Due = MemDue;

    type Lapse = MemLapse;

    ghost mark = { 0 };

    ghost due_tick = { λ due. due };

    ghost lapse_tick = { λ lapse. lapse };

    ghost state = { λ s. record {
      paced = Some (ticker_pace s);
      waited = Some (ticker_waited s);
      faults = (ticker_calls s).faults;
    } };

    fn pace(&mut self, milliseconds: u16)
        ensures pace { ticker_pace self.new ≡ Some milliseconds }
        ensures waited { ticker_waited self.new ≡ ticker_waited self.old }
        ensures calls { ticker_calls self.new ≡ ticker_calls self.old }
    {
        self.pace = Some(milliseconds);
    }

    fn wait<R: Wait + Clock>(&mut self, _rt: &R, tick: Tick) -> Result<MemDue, MemLapse>
        requires { length (ticker_waited self.old) < TICKS }
        ensures lapses { IsErr result ↔ IsNextToFail (ticker_calls self.old) }
        ensures tick { MatchResult result (λ due. due ≡ tick) (λ lapse. lapse ≡ tick) }
        ensures waited { ticker_waited self.new ≡ ticker_waited self.old ++ record { tick = tick; lapsed = is_err result; paced = Some (ticker_pace self.old) } ∷ [] }
        ensures pace { ticker_pace self.new ≡ ticker_pace self.old }
        ensures calls { ticker_calls self.new ≡ after_call (ticker_calls self.old) result }
        ensures cause { HasCause (ticker_calls self.old).faults (ticker_calls self.new).faults result }
    {
        let lapses = self.faults.next_fails();
        let wait = MemWait {
            tick,
            lapsed: lapses,
            pace: self.pace,
        };
        if self.waited.push(wait).is_err() {
            unreachable!()
        }
        if lapses {
            self.faults.add();
            return Err(MemLapse { tick });
        }
        Ok(MemDue { tick })
    }

    fn late(&mut self, lapse: MemLapse) -> MemDue
        ensures tick { result ≡ lapse }
        ensures waited { ticker_waited self.new ≡ ticker_waited self.old }
        ensures pace { ticker_pace self.new ≡ ticker_pace self.old }
        ensures calls { ticker_calls self.new ≡ ticker_calls self.old }
    {
        let MemLapse { tick } = lapse;
        MemDue { tick }
    }

    fn faults(&self) -> u64 {
        self.faults.count()
    }
}
