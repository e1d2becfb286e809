//! Plays a game from a script.
pub(crate) mod call_counts;
pub(crate) mod counts;
pub(crate) mod held_line;
pub(crate) mod lines;
pub(crate) mod open_game;
pub(crate) mod play_count;
mod playing;
pub(crate) mod run;
mod stepping;
pub(crate) mod table;

pub use lines::GameLine;
pub use play_count::PlayCount;
pub use playing::{play, play_quiet};
pub use stepping::{PIECE_BYTES, step_game};
