//! The floor of a game: 28 auctions and one cash book, which nine desks call from any threads. Each desk posts the trades of its own
//! entries. No call takes one lock while it holds another.
#![tactic(auto)]

mod cash_turns;
mod closing;
mod desk;
mod floor;
mod growing;
mod opening;
mod outcomes;
mod sharing;
mod step_list;

pub use desk::Desk;
pub use floor::Floor;
pub use outcomes::{CashOutcome, Outcome};
