//! The score sheet of a game: each agent's score, from its account and a best allocation of its goods. The crate re-exports from
//! `settlement` what a game leaves to each agent, and the definition of a score.
#![tactic(auto)]

mod joining;
mod scores;

pub use joining::sheet;
pub use settlement::{Accounts, AgentScore, Sheet, settle, settle_auctions, short};
