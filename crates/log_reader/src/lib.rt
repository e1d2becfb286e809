//! Reads the log of a game from its text.
#![tactic(auto)]

mod cash;
mod certs;
mod entries;
mod fault;
mod head;
mod histories;
mod line_forms;
mod log_lines;
mod logs;
mod parts;
mod reading;
mod reading_law;
mod scores;

pub use fault::LogFault;
pub use histories::LogHistory;
pub use line_protocol::LogHead;
pub use logs::Log;
pub use reading::read_log;
pub use reading_law::one_reading;
pub use scores::ScoreLine;
