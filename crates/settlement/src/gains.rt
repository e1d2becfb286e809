// What a party gains in the trades of a game, in dollars.
ghost use Rattle.std.specs.Prelude.{◌≡◌, ◌+◌, ◌*◌, ◌<◌, ◌≤◌, [], ◌∷◌, pos, Some, length, map, reverse, slice_get};
ghost use Rattle.settlement.specs.{all_trades, dollars, IsWithin, cash_gained};

use auction_core::Auction;
use tac_base::limits::GOODS;
use tac_base::{Entry, Party, Trade};

/// Returns what a trade moves from its buyer to its seller.
fn cost(trade: &Trade) -> i64
    ensures value { result ≡ pos (trade.now.units * trade.now.price) }
    ensures bound { IsWithin 16711425 result }
{
    i64::from(trade.units) * i64::from(trade.price)
}

/// Returns what one trade gives a party.
fn gain(trade: &Trade, party: Party) -> i64
    ensures value { result ≡ dollars (trade.now ∷ []) party }
    ensures bound { IsWithin 16711425 result }
{
    let cost = cost(trade);
    let mut gain = 0;
    if trade.seller == party {
        gain += cost;
    }
    if trade.buyer == party {
        gain -= cost;
    }
    gain
}

/// Returns what the trades of an entry give a party.
fn gain_of_trades(trades: &[Trade], party: Party) -> i64
    requires { length trades.now ≤ 255 }
    ensures value { result ≡ dollars trades.now party }
    ensures bound { IsWithin 4261413375 result }
{
    let mut sum = 0;
    for trade in trades {
        sum += gain(trade, party);
    }
    sum
}

/// Returns how many trades an entry has, at most 255.
fn trade_count(entry: &Entry) -> u8
    ensures value { result ≡ entry.now.trades }
    ensures few { result ≤ 255 }
{
    entry.trades
}

/// Returns the trades of the entry at a position, where there must be one.
fn trades_at(auction: &Auction, position: u32) -> &[Trade]
    requires { position < length auction.now.history }
    ensures value { slice_get (map (λ e. e.trades) auction.now.history) position ≡ Some result.now }
    ensures few { length result.now ≤ 255 }
{
    let _few = trade_count(auction.entry(position).unwrap());
    auction.trades_of(position)
}

/// Returns what the entries of an auction give a party.
fn gain_of_auction(auction: &Auction, party: Party) -> i64
    ensures value { result ≡ dollars (all_trades (reverse auction.now.history)) party }
    ensures bound { IsWithin 35182228824000 result }
{
    let mut sum = 0;
    for position in 0..auction.len() {
        sum += gain_of_trades(trades_at(auction, position), party);
    }
    sum
}

/// Returns what all auctions of a game give a party.
pub(crate) fn gain_of_game(auctions: &[Auction], party: Party) -> i64
    requires { length auctions.now ≡ GOODS }
    ensures value { result ≡ cash_gained auctions.now party }
    ensures bound { IsWithin 1000000000000000 result }
{
    let mut sum = 0;
    for auction in auctions {
        sum += gain_of_auction(auction, party);
    }
    sum
}
