// The ticker of the system: a clock.
ghost use Rattle.std.specs.Duration.{as_nanos, max_nanos};
ghost use Rattle.std.specs.Prelude.{◌≡◌, ◌*◌, ◌-◌, min, None, Some, IfSome, MatchResult};
ghost use Rattle.tac_io.specs.Counts.{HasCause};

use std::rt::Clock;
use std::sync::Wait;
use std::time::{Duration, Instant};
use std::{io, thread};
use tac_base::Tick;
use tac_io::Ticker;

/// A tick that was waited for.
#[derive(Drop)]
pub(crate) struct SleptDue {
    tick: Tick,
}

/// A tick whose time was not known.
#[derive(Drop)]
pub(crate) struct SleptLapse {
    tick: Tick,
}

/// A ticker that sleeps. The first tick comes one pace after the first wait began, and each later one a pace after the one before,
/// however late that one was taken. It counts its faults; no clause says what it waited for.
#[derive(Drop)]
pub(crate) struct SleepTicker {
    pace: Duration,
    start: Option<Instant>,
    faults: u64,
}

impl SleepTicker {
    /// No tick was waited for yet, and the pace is zero.
    pub(crate) fn new() -> SleepTicker
        ensures start { result.start ≡ None }
        ensures faults { result.faults ≡ 0 }
    {
        SleepTicker {
            pace: Duration::ZERO,
            start: None,
            faults: 0,
        }
    }

    /// The time left until a tick, when this much time has passed since the first wait began.
    fn left(&self, tick: u8, over: Duration) -> Duration
        ensures { as_nanos result ≡ min (as_nanos self.now.pace * tick) max_nanos - as_nanos over }
    {
        let due = self.pace.saturating_mul(u32::from(tick));
        due.saturating_sub(over)
    }

    /// Sleeps until the time of a tick, unless it has passed.
    fn sleep<R: Wait + Clock>(&mut self, rt: &R, tick: u8) -> io::Result<()>
        ensures faults { self.new.faults ≡ self.old.faults }
        ensures pace { self.new.pace ≡ self.old.pace }
        ensures start { IfSome self.old.start (λ start. self.new.start ≡ Some start) }
    {
        let now = Instant::now(rt)?;
        let start = *self.start.get_or_insert(now);
        thread::sleep(rt, self.left(tick, now.saturating_duration_since(start)));
        Ok(())
    }
}

impl Ticker for SleepTicker {
    ghost use Rattle.std.specs.Prelude.{None};

    type Due = SleptDue;

    type Lapse = SleptLapse;

    ghost mark = { 2 };

    ghost due_tick = { λ due. due.tick };

    ghost lapse_tick = { λ lapse. lapse.tick };

    ghost state = { λ s. record { paced = None; waited = None; faults = s.faults } };

    fn pace(&mut self, milliseconds: u16)
        ensures faults { self.new.faults ≡ self.old.faults }
        ensures pace { as_nanos self.new.pace ≡ milliseconds * 1_000_000 }
        ensures start { self.new.start ≡ self.old.start }
    {
        self.pace = Duration::from_millis(u64::from(milliseconds));
    }

    fn wait<R: Wait + Clock>(&mut self, rt: &R, tick: Tick) -> Result<SleptDue, SleptLapse>
        ensures tick { MatchResult result (λ due. due.tick ≡ tick) (λ lapse. lapse.tick ≡ tick) }
        ensures cause { HasCause self.old.faults self.new.faults result }
        ensures pace { self.new.pace ≡ self.old.pace }
        ensures start { IfSome self.old.start (λ start. self.new.start ≡ Some start) }
    {
        match self.sleep(rt, tick.get()) {
            Ok(()) => Ok(SleptDue { tick }),
            Err(_) => {
                self.faults = self.faults.saturating_add(1);
                Err(SleptLapse { tick })
            }
        }
    }

    fn late(&mut self, lapse: SleptLapse) -> SleptDue {
        let SleptLapse { tick } = lapse;
        SleptDue { tick }
    }

    fn faults(&self) -> u64 {
        self.faults
    }
}
