use tac_base::Agent;

/// The verdict on a link that asked for a seat. This project defines the verdicts and their order.
#[derive(Clone, Copy, Debug, PartialEq, Eq)]
pub enum Verdict {
    /// It plays as this agent.
    Seated(Agent),
    /// Its first line was not `hello` with a seat word.
    Syntax,
    /// No seat has its word.
    WrongWord,
    /// The seat of its word is already taken.
    Taken,
    /// Its first line did not end within the bytes that a link may give, or a read failed first.
    Lost,
}

/// Why the session of a seated link ended.
#[derive(Clone, Copy, Debug, PartialEq, Eq)]
pub enum Cause {
    /// The agent sent `quit` and got `bye`.
    Quit,
    /// The link had no more bytes.
    End,
    /// A read failed.
    ReadFault,
    /// A write failed.
    WriteFault,
    /// The session used up its lines or its bytes.
    Budget,
}
