//! The gate, where links ask for seats, and the sessions, which answer agents line by line.
#![tactic(auto)]

mod answering;
mod dialect;
mod gate;
mod session;
mod turns;
mod welcome;

pub use dialect::{Dialect, LineDialect};
pub use gate::Gate;
pub use line_protocol::{Cause, Verdict};
pub use session::{SessionEnd, run_session};
