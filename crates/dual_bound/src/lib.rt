//! Whole prices that bound the worth of the packages that are left.
#![tactic(auto)]

mod choices;
mod quotes;
mod settling;

pub use choices::Choice;
pub use quotes::Quote;
pub use settling::{dual_prices, settled_quote};
