//! Finds the best allocation of an account by branch and bound, and certifies that none is worth more.
#![tactic(auto)]

mod candidates;
mod printing;
mod scarcity;
mod searching;
mod solving;
mod symmetry;

pub use bound_cert::Solved;
pub use printing::{append_solved, print_solved};
pub use solving::solve;
