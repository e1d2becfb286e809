// A ticker of the outside.
ghost use Rattle.std.specs.Prelude.{◌≡◌, ◌∷◌, [], ◌<◌, ℕ, length, IfSome, MatchResult, is_err, option_map, Some};
ghost use Rattle.tac_base.specs.declared.limits.TheConstants.{TICKS};
ghost use Rattle.tac_io.specs.{HasCause, TickerState, known_then};

use std::rt::Clock;
use std::sync::Wait;
use tac_base::Tick;

/// What the clock waits for.
pub trait Ticker {
    /// Evidence that a tick was waited for. A caller gets it only from these calls.
    type Due: Drop;

    /// Evidence that the wait for a tick failed.
    type Lapse: Drop;

    /// A number for this type of ticker. It appears in a desk's step that takes a due.
    ghost mark: { ℕ };

    /// The tick of a due.
    ghost due_tick: { Self.Due → ℕ };

    /// The tick of a lapse.
    ghost lapse_tick: { Self.Lapse → ℕ };

    /// The pace, if one was set, and the waits for ticks, each with whether it lapsed and the pace
    /// at that moment, if known; and the count of faults, which never falls and stays at
    /// its maximum.
    ghost state: { Self → TickerState };

    /// Sets the pace, in milliseconds between two ticks.
    fn pace(&mut self, milliseconds: u16)
        ensures { state self.new
            ≡ record (state self.old) { paced = option_map (λ _. Some milliseconds) (state self.old).paced } };

    /// Waits for a tick. A lapse is a fault: the wait failed, and the tick's time may be past or
    /// still to come.
    fn wait<R: Wait + Clock>(&mut self, rt: &R, tick: Tick) -> Result<Self::Due, Self::Lapse>
        requires { IfSome (state self.old).waited (λ waits. length waits < TICKS) }
        ensures tick { MatchResult result
            (λ due. due_tick due ≡ tick)
            (λ lapse. lapse_tick lapse ≡ tick) }
        ensures waited { (state self.new).waited
            ≡ known_then (state self.old).waited (record { tick = tick; lapsed = is_err result; paced = (state self.old).paced } ∷ []) }
        ensures paced { (state self.new).paced ≡ (state self.old).paced }
        ensures cause { HasCause (state self.old).faults (state self.new).faults result };

    /// Makes the due of a tick that lapsed.
    fn late(&mut self, lapse: Self::Lapse) -> Self::Due
        ensures tick { due_tick result ≡ lapse_tick lapse }
        ensures same { state self.new ≡ state self.old };

    /// Returns how many waits have lapsed.
    fn faults(&self) -> u64
        ensures { result ≡ (state self.now).faults };
}
