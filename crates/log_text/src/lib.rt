//! The text of a game's log: its lines, and the laws that a text belongs to at most one game.
#![tactic(auto)]

mod law;
mod printing;

pub use law::{one_game, one_log, one_sheet};
pub use line_protocol::LogHead;
pub use printing::{
    auction_line, cash_entry_line, cash_line, end_line, entry_line, link_line, missed_line,
    none_line, print_score, print_sheet, trade_line,
};
