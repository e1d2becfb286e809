use tac_base::{Agent, Good};

/// Why a log is not sound. A log can have several flaws. The first one is reported: the order is the one given here, which this project
/// defines, and within a kind the lowest good comes first, and there the lowest position or agent.
#[derive(Clone, Copy, Debug, PartialEq, Eq)]
pub enum Flaw {
    /// The reply or the trades of an entry are not those that the rules give, or its caller had no entry left.
    Entry { good: Good, position: u32 },
    /// The clock's calls at a good are not those of the game's schedule.
    Clock { good: Good },
    /// A reading does not show what the posts before it give its agent.
    Cash { position: u32 },
    /// A post names no entry with a trade, or an entry of another caller or with other nets, or one that an earlier post names.
    Post { position: u32 },
    /// An entry with a trade has no post.
    Unposted { good: Good, position: u32 },
    /// The score of an agent, its packages or its certificate are not right.
    Score { agent: Agent },
    /// What the head says about the links, the ends and the missed ticks cannot be true.
    Head,
}

/// The result of an audit.
#[derive(Clone, Copy, Debug, PartialEq, Eq)]
pub enum Finding {
    /// The log is sound.
    Sound,
    /// The log is not sound, and this is its first flaw.
    Unsound(Flaw),
}
