//! Judges a log by its game, without playing the game again over links.
#![tactic(auto)]

mod auditing;
mod findings;
mod goods;
mod heads;
mod law;
mod places;
mod posts;
mod readings;
mod replaying;
mod scheduling;
mod scores;

pub use auditing::audit_log;
pub use findings::{Finding, Flaw};
pub use law::no_flaw;
