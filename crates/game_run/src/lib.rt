//! Runs a game over links: it admits agents, and runs their sessions concurrently with the clock.
#![tactic(auto)]

mod admission;
mod arrivals;
mod play;
mod run;
mod seating;
mod session_ends;
mod sessions;

pub use run::{GameEnd, RunFault, run_game};
