use crate::auction::Auction;
use std::marker::Model;
use trade_ledger::CashBook;

/// A game that accepts no more calls: the auctions of the 28 goods in order, and the cash book.
#[derive(Drop)]
pub struct Closed {
    pub auctions: Vec<Auction>,
    pub cash: CashBook,
}

impl Model for Closed {
    ghost use Rattle.std.specs.Prelude.{◌≡◌, map};
    ghost use Rattle.auction_core.specs.ClosedGame.{ClosedGame, all_goods};

    ghost Value = { ClosedGame };

    ghost view = { λ c. record { auctions = c.auctions.items; cash = c.cash } };

    ghost invariant = { λ c. map (λ auction. auction.setup.good) c.auctions.items ≡ all_goods };
}
