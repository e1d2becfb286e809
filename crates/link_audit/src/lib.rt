//! Audits one link from outside: whether a log is right about the bytes that an agent's link asked and was sent.
#![tactic(auto)]

mod calls;
mod cash;
mod causes;
mod goods;
mod greeting;
mod hearing;
mod judging;
mod known;
mod laws;
mod leaving;
mod leftovers;
mod lines;
mod next;
mod passing;
mod places;
mod replies;
mod stepping;
mod table;
mod taking;
mod vouching;

pub use judging::vouch;
pub use known::KnownDialect;
pub use laws::{first_differences, line_replies, vouched_link};
pub use vouching::{Difference, Vouching};
