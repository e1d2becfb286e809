//! The parts of a text between separators, its lines with their numbers, and the words of a line.
#![tactic(auto)]

mod lines;
mod printing;
mod rows;
mod steps;
mod words;

pub use lines::{BadLine, Ending, NumberedLine, Reason, TextLines, at_line};
pub use printing::{PrintedPart, print_parts};
pub use rows::{Column, Digits, print_row, read_row};
pub use steps::{Part, repeat};
pub use words::{Words, count_parts, cut};
