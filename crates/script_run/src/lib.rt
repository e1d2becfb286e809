//! Runs a hotel auction, or a whole game, from a script.
#![tactic(auto)]

mod fault;
mod game;
mod hotel;
mod law;
mod replies;

pub use fault::{QuietFault, ScriptFault, ScriptReason, StepFault};
pub use game::{GameLine, PIECE_BYTES, PlayCount, play, play_quiet, step_game};
pub use hotel::{HotelLine, run_hotel_script};
pub use law::script_law;
