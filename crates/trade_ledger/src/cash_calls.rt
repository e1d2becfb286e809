use tac_base::{Agent, Caller, Good, Nets};

/// A call that a caller can make to the cash book.
#[derive(Clone, Copy, Debug, PartialEq, Eq)]
pub enum CashCall {
    /// Adds the net amounts of one entry's trades. The entry is given by its good and its position in that good's history.
    Post {
        good: Good,
        position: u32,
        nets: Nets,
    },
    /// An agent reads its own cash.
    Read {
        agent: Agent,
    },
}

/// The reply of the cash book, which refuses no call.
#[derive(Clone, Copy, Debug, PartialEq, Eq)]
pub enum CashReply {
    /// The post was added.
    Done,
    /// The agent's cash, in dollars: the sum of its nets in the posts so far.
    Cash(i64),
}

/// One call of the cash history with its reply.
#[derive(Clone, Copy, Debug, PartialEq, Eq)]
pub struct CashEntry {
    /// Who called.
    pub caller: Caller,
    /// The call that was made.
    pub call: CashCall,
    /// The reply to it.
    pub reply: CashReply,
}
