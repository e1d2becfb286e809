//! Games and game scripts made from a seed.
#![tactic(auto)]

mod clients;
mod closing_orders;
mod drawing;
mod endowments;
mod flights;
mod games;
mod scripts;

pub use games::make_game;
pub use scripts::make_script;
