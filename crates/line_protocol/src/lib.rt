//! The lines between an agent and the server: reads requests, and prints and reads replies.
#![tactic(auto)]

mod admission;
mod asking;
mod head;
mod printing;
mod reading;
mod requests;
mod saying;

pub use admission::{Cause, Verdict};
pub use asking::{Request, RequestFault};
pub use head::LogHead;
pub use printing::{number_of, print_answer, print_reply};
pub use reading::{read_answer, read_reply};
pub use requests::{one_request, read_request};
pub use saying::Said;
