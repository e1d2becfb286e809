use crate::RequestFault;
use tac_base::{Board, Reply};

/// What the server says to an agent in a line.
#[derive(Debug, Drop)]
pub enum Said {
    /// The reply to a call, whose entry has this position in the history of its auction, counted from 0.
    At(u32, Reply),
    /// The agent's net cash, in dollars, over the posts before this position of the cash history.
    Cash(u32, i64),
    /// The board of an auction after its first `count` entries.
    Quote(Board),
    /// The agent has no calls left in this auction, or no readings of its cash. No call was made, and there is
    /// no entry.
    Spent,
    /// The line was not a request.
    Fault(RequestFault),
    /// The line had more than 512 bytes.
    TooLong,
    /// The session ends as the agent asked.
    Bye,
}
