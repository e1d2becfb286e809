//! Prints the lines of a log.
mod heads;
pub(crate) mod lines;
mod sheets;

pub use heads::{end_line, link_line, missed_line};
pub use lines::{auction_line, cash_entry_line, cash_line, entry_line, trade_line};
pub use sheets::{none_line, print_score, print_sheet};
