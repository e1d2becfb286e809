//! The auction of a flight: a rule moves its price, and the house sells whole points at that price.
#![tactic(auto)]

mod book;
mod prices;
mod sales;

pub use book::Flight;
pub use prices::next_price;
