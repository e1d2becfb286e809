//! The standings of teams over several games.
#![tactic(auto)]

mod averages;
mod counting;
mod law;
mod printing;
mod rows;
mod standings;
mod tallies;

pub use law::one_standings;
pub use printing::print_standings;
pub use rows::TeamRow;
pub use standings::Standings;
