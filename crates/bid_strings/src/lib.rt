//! Bids as text: reads the points of a bid from a string, and prints them as one.
#![tactic(auto)]

mod printing;
mod reading;

pub use printing::print_points;
pub use reading::{one_spelling, read_points};
