//! The outside of the server: files, a sink, links and a ticker, as traits, with implementations in
//! memory; reading of whole files, writing of whole texts, and the lines of a link.
//!
//! Each object counts its faults in a u64 that never falls and stays at its maximum. Each call that
//! fails raises that count, unless it is at its maximum; a call that does not fail leaves it
//! unchanged. What an object holds, has left, took or was sent is known for the objects in memory,
//! and not for those of the operating system.
#![tactic(auto)]

mod buffer;
mod failed;
mod files;
mod line_got;
mod lines;
mod link;
mod links;
mod memory;
mod reading;
mod sink;
mod ticker;
mod writing;

pub use failed::Failed;
pub use files::Files;
pub use line_got::LineGot;
pub use lines::Lines;
pub use link::Link;
pub use links::Links;
pub use memory::{
    HeldLink, Hold, LineCount, LinesSent, Look, LookingTicker, MOST_TURNS, MemDue, MemFile,
    MemFiles, MemLapse, MemLink, MemLinks, MemSink, MemTicker, was_sent,
};
pub use reading::{FileFault, read_file};
pub use sink::Sink;
pub use ticker::Ticker;
pub use writing::write_all;
