//! One auction: the book of its good, and the history of its calls. An auction is a state that a turn lock keeps; this crate
//! re-exports `Kept` from `turn_lock`.
#![tactic(auto)]

mod auction;
mod auction_setup;
mod book;
mod closed;
mod effects;
mod entries;
mod flight_calls;
mod hotel_calls;
mod order_book;
mod storing;
mod ticket_calls;

pub use auction::Auction;
pub use auction_setup::AuctionSetup;
pub use closed::Closed;
pub use entries::{AuctionEntry, Struck};
pub use turn_lock::Kept;
