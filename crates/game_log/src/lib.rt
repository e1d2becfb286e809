//! Writes the log of a game: its histories, and then the sheet with its scores. The crate re-exports reading a log from
//! `log_reader`, and the definition of a sound log from `log_text`.
#![tactic(auto)]

mod fault;
mod gathered;
mod head_part;
mod known;
mod play_part;
mod ranges;
mod scores_part;
mod sheet_known;
mod sheet_part;

pub use fault::LogWriteFault;
pub use line_protocol::LogHead;
pub use log_reader::{Log, LogFault, LogHistory, ScoreLine, read_log};
pub use log_text::{one_game, one_log, one_sheet, print_score, trade_line};
pub use play_part::write_play_part;
pub use ranges::log_ranges;
pub use scores_part::{score_game, write_scores};
pub use sheet_part::write_sheet_part;
