//! The auction of a ticket: agents trade with each other, at the price of the standing unit.
#![tactic(auto)]

mod book;
mod matching;
mod order;
mod refusals;
mod remains;
mod sides;

pub use book::Tickets;
