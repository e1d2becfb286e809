use tac_base::{Agent, Good};

/// The first place at which a log is not right about a link. The order is the one given here, which this project defines.
#[derive(Clone, Copy, Debug, PartialEq, Eq)]
pub enum Difference {
    /// The first line takes no seat of the game, or the log gives that seat to no link.
    Seat,
    /// The bytes sent to the agent do not begin with its ten lines of welcome.
    Welcome,
    /// By the log, this line, counted from 1 after the greeting, did not get its reply, and those before it did; or there is no such line.
    Line(u32),
    /// The log has this entry of the agent, the lowest that is left over: none of the lines up to the end of the comparison left it.
    Entry { good: Good, position: u32 },
    /// The same for this entry of the agent in the cash history; no entry is left over at any good.
    Cash(u32),
    /// The cause of the session's end is not one that the record allows: another than `quit` although the `bye` arrived, `quit` although no line
    /// without a reply asks for it, another than a used-up budget although 65,536 lines were answered, a failed write although each line was
    /// answered, or a used-up budget of more lines and bytes than there are.
    Cause,
}

/// The result of auditing a link. Each yes has the agent, the number of replies that arrived, and how many of these say that the server had no
/// memory to read the line.
#[derive(Clone, Copy, Debug, PartialEq, Eq)]
pub enum Vouching {
    /// The log is right about this link, and nothing is left over: each whole line, up to the one by which the agent left, has its reply, this
    /// many in all, and no bytes follow the last reply.
    Whole {
        agent: Agent,
        lines: u32,
        memory: u32,
    },
    /// The log is right about this link, as far as this many replies arrived. Of the lines after them, this many left a call or a reading in
    /// the log, and no other line did. The post of a call is not counted.
    Cut {
        agent: Agent,
        lines: u32,
        after: u32,
        memory: u32,
    },
    /// The log is not right about this link, and here it differs first.
    Not(Difference),
}
