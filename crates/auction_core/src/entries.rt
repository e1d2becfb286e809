use std::marker::Model;
use tac_base::{Call, Caller, Fills, Nets, Reply};

/// The result of a call.
#[derive(Debug, Drop)]
pub struct Struck {
    /// The reply to the call.
    pub reply: Reply,
    /// What the entry's trades give each party, in dollars.
    pub nets: Nets,
    /// The number of the entry's trades, at most 128.
    pub trades: u8,
}

/// An entry of a history with its trades, as contracts see it.
#[derive(Debug, Drop)]
pub struct AuctionEntry {
    caller: Caller,
    call: Call,
    reply: Reply,
    trades: Fills,
}

impl Model for AuctionEntry {
    ghost use Rattle.auction_rules.specs.History.{Entry};

    ghost Value = { Entry };

    ghost view = { λ h. record { caller = h.caller; call = h.call; reply = h.reply; trades = h.trades } };
}
