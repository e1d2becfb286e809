//! The objects of the outside in memory.
mod failures;
mod faults;
mod files;
mod give;
mod held_link;
mod link;
mod links;
mod looking_ticker;
mod sink;
mod ticker;

pub use files::{MemFile, MemFiles};
pub use held_link::{HeldLink, Hold, LineCount, LinesSent, MOST_TURNS, was_sent};
pub use link::MemLink;
pub use links::MemLinks;
pub use looking_ticker::{Look, LookingTicker};
pub use sink::MemSink;
pub use ticker::{MemDue, MemLapse, MemTicker};
