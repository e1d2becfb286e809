use tac_base::{BidFault, Good, Points};

/// What an agent requests in a line.
#[derive(Debug, Drop)]
pub enum Request {
    /// To bid in the auction of the good. The bid replaces the whole earlier bid.
    Bid { good: Good, points: Points },
    /// To withdraw the standing bid in the auction of the good.
    Withdraw { good: Good },
    /// To read the agent's holding of the good and its standing points.
    Own { good: Good },
    /// To read the board of the good's auction.
    Quote { good: Good },
    /// To read the agent's net cash.
    Cash,
    /// To end the session.
    Quit,
}

/// Why a line is not a request. The faults are tested in this order, which this project defines.
/// Such a line changes nothing.
#[derive(Clone, Copy, Debug, PartialEq, Eq)]
pub enum RequestFault {
    /// The line has none of the forms of a request.
    Syntax,
    /// The number is not a good, 0..27.
    NoSuchAuction,
    /// The points are refused.
    Bid(BidFault),
    /// A memory allocation for reading the line failed. No line of words has this fault.
    Memory,
}
