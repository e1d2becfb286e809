//! The rules of the auctions: the definitions that contracts cite, and bids and their units as the books keep them.
#![tactic(auto)]

mod rules;
mod trades;
mod units;
mod wrong_calls;

pub use rules::Rules;
pub use trades::{bought, sold};
pub use units::{BidUnit, Placed, StandingPoint, push_point, push_units, sells};
pub use wrong_calls::wrong_reply;
