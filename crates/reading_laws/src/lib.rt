//! The laws of the readers of whole texts: they define the first bad line of a text by the texts of its kind.
#![tactic(auto)]

mod certificates;
mod games;
mod logs;

pub use certificates::first_bad_line_of_certificates;
pub use games::{first_bad_line_of_accounts, first_bad_line_of_games};
pub use logs::first_bad_line_of_logs;
