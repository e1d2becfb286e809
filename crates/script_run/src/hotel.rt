//! Runs a hotel auction from a script.
mod line_counts;
pub(crate) mod lines;
pub(crate) mod run;
mod script;

pub use lines::HotelLine;
pub use script::run_hotel_script;
