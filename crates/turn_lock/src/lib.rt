//! A ticket lock whose callers take turns at one state; each turn appends one entry to the state's history. The contracts hold for every
//! schedule: each caller learns its own part of the one history that the state has at the end. No contract states that a caller gets
//! its turn, or when.
#![tactic(auto)]

mod board_word;
mod kept;
mod lock;
mod own_seat;
mod pass;
mod sharing;
mod steps;
mod view;

pub use kept::Kept;
pub use lock::TurnLock;
pub use pass::Pass;
pub use view::{Returned, View};
