//! What one unit more of each good adds to an account's best total, and what one unit less takes from it, each with certificates.
#![tactic(auto)]

mod changes;
mod printing;
mod worths;

pub use printing::print_worths;
pub use worths::{Worths, worth};
