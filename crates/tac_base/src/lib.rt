//! The vocabulary of all other crates: numbers of agents, goods and ticks, bids, trades, calls and replies
//! of the auctions, clients, short texts and numerals. Each value keeps its range, and no call allocates memory.
#![tactic(auto)]

mod bids;
mod calls;
mod clients;
pub mod limits;
mod memory;
mod numbers;
mod numerals;
mod same;
mod text;
mod units;

pub use bids::{BidDraft, BidFault, Left, Point, Points};
pub use calls::{Board, Call, Entry, Fills, Nets, Reply, Trade};
pub use clients::Client;
pub use memory::Memory;
pub use numbers::{Agent, Caller, Good, Kind, OutOfRange, Party, Tick};
pub use numerals::{one_numeral, print_numeral, print_signed, read_numeral, read_signed};
pub use same::{same_call, same_left, same_points, same_reply};
pub use text::Text;
pub use units::Unit;
