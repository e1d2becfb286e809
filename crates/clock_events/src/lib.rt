//! The clock's schedule of calls, and the loop that makes them.
#![tactic(auto)]

mod calls;
mod clock;
mod laws;

pub use calls::schedule;
pub use clock::{ClockEnd, clock_tick, run_clock};
pub use laws::schedule_law;
