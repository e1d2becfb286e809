//! The auction of a hotel night. It keeps the standing units in order of precedence, the ask, and how many of each agent's units win.
#![tactic(auto)]

mod book;
mod closing;
mod order;
mod quotes;
mod ranking;

pub use book::Hotel;
