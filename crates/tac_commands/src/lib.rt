//! The commands of `tac`: their words, the files that each reads, what it makes of them, and its exit code. This crate runs the commands that
//! need no links.
#![tactic(auto)]

mod audit_command;
mod batch;
mod code;
mod ends;
mod file_kinds;
mod numbered_lines;
mod reading;
mod refusals;
mod running;
mod script_commands;
mod services;
mod step_command;
mod table_command;
mod trial_command;
mod vouch_command;
mod words;
mod worth_command;
mod written_logs;

pub use code::Code;
pub use ends::{End, finish};
pub use file_kinds::FileKind;
pub use reading::{FileValue, read_value};
pub use refusals::Refusal;
pub use running::run_words;
pub use services::{Form, Service, service_asked};
pub use written_logs::written_log_law;
