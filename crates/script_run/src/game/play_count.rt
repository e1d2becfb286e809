// Counts what happened in a game.
ghost use Rattle.std.specs.Prelude.{◌≡◌, ◌<◌, ◌≤◌, List, length, sum_by, slice_get, Some};
ghost use Rattle.script_run.specs.Prelude.{all_trades, Entry};

use auction_core::{Auction, Closed};

/// The number of entries and of trades in the 28 histories of a game.
#[derive(Clone, Copy, Debug, PartialEq, Eq)]
pub struct PlayCount {
    /// Entries, including those of refused calls: at most 231,168.
    pub entries: u32,
    /// Trades, however many units each has.
    pub trades: u32,
}

/// The number of trades of the entry at a position.
fn trades_at(auction: &Auction, position: u32) -> u8
    requires { position < length auction.now.history }
    ensures { (e : Entry) → slice_get auction.now.history position ≡ Some e → result ≡ length e.trades }
{
    match auction.entry(position) {
        Some(entry) => entry.trades,
        None => 0,
    }
}

/// The number of trades in an auction.
fn trades_in(auction: &Auction) -> u32
    ensures value { result ≡ length (all_trades auction.now.history) }
    ensures few { result ≤ 2105280 }
{
    let mut trades = 0;
    for position in 0..auction.len() {
        trades += u32::from(trades_at(auction, position));
    }
    trades
}

/// Counts the entries and trades in the auctions of a game.
pub(crate) fn counted(closed: &Closed) -> PlayCount
    ensures { result ≡ record { entries = sum_by (λ a. length a.history) closed.now.auctions; trades = sum_by (λ a. length (all_trades a.history)) closed.now.auctions } }
{
    let mut count = PlayCount {
        entries: 0,
        trades: 0,
    };
    for auction in &closed.auctions {
        count.entries += auction.len();
        count.trades += trades_in(auction);
    }
    count
}
