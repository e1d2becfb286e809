// Reads the forms of a log's lines.
mod entries;
pub(crate) mod heads;
mod sheets;

pub(crate) use entries::{auction_of, cash_entry_of, cash_of, entry_of, starts, trade_of};
pub(crate) use heads::{end_of, link_of, missed_of};
pub(crate) use sheets::{count_of, package_of, score_of};
