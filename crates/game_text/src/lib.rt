//! The reading and printing of game files and account files.
#![tactic(auto)]

mod accounts;
mod agent_lines;
mod agents;
mod client_lines;
mod closing_orders;
mod endowments;
mod fault;
mod flights;
mod games;
mod headers;
mod hotel_nights;
mod numbers;
mod printing;
mod quiet;
mod seat_words;

pub use accounts::{Account, read_account};
pub use agent_lines::print_agent_line;
pub use fault::GameFault;
pub use flights::FlightLine;
pub use games::{Game, read_game};
pub use printing::print_game;
pub use seat_words::SeatWord;
