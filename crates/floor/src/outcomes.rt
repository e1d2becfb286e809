use tac_base::Reply;

/// The result of an agent's call at an auction.
#[derive(Debug, Drop)]
pub enum Outcome {
    /// The call has an entry at this position, with this reply.
    At { position: u32, reply: Reply },
    /// The desk had made 1024 calls there. Nothing changed.
    Spent,
}

/// The result of reading an agent's cash.
#[derive(Clone, Copy, Debug, PartialEq, Eq)]
pub enum CashOutcome {
    /// The reading has an entry at this position of the cash history. The agent's cash is this many dollars.
    At { position: u32, dollars: i64 },
    /// The desk had made 1024 readings. Nothing changed.
    Spent,
}
