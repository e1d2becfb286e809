// Writes the first part of a log, piece by piece.
ghost use Rattle.std.specs.Prelude.{◌≡◌, ◌<◌, length, Some, slice_get, flat_map};
ghost use Rattle.auction_rules.specs.History.{Entry};
ghost use Rattle.game_log.specs.Prelude.{CashEntry, head_of, IsPlayed, IsHead, WritesPiece};
ghost use Rattle.log_text.specs.LogText as log;
ghost use Rattle.game_log.specs.Gathering.{Gathers};

use crate::LogHead;
use crate::gathered::Gathered;
use crate::head_part::write_head;
use crate::known::{auctions_known, cash_known, head_known};
use auction_core::{Auction, Closed};
use log_text::{auction_line, cash_entry_line, cash_line, entry_line, trade_line};
use tac_base::Trade;
use tac_io::{Failed, Sink};
use trade_ledger::CashBook;
use turn_lock::Kept;

/// Writes the lines of trades.
fn write_trades<K: Sink>(
    sink: &mut K,
    gathered: &mut Gathered,
    trades: &[Trade],
) -> Result<(), Failed>
    ensures { Gathers (flat_map log.trade_line trades.now) gathered.old gathered.new (K.state sink.old) (K.state sink.new) result }
{
    for trade in trades {
        gathered.add(sink, trade_line(trade).as_slice())?;
    }
    Ok(())
}

/// Writes the entry of an auction at a position, with its trades.
fn write_entry<K: Sink>(
    sink: &mut K,
    gathered: &mut Gathered,
    auction: &Auction,
    position: u32,
) -> Result<(), Failed>
    requires { position < length auction.now.history }
    ensures { (e : Entry) → slice_get auction.now.history position ≡ Some e →
        Gathers (log.entry_text e) gathered.old gathered.new (K.state sink.old) (K.state sink.new) result }
{
    let Some(entry) = auction.entry(position) else {
        unreachable!()
    };
    let line = entry_line(entry.caller, &entry.call, &entry.reply);
    match gathered.add(sink, line.as_slice()) {
        Ok(()) => write_trades(sink, gathered, auction.trades_of(position)),
        Err(failed) => Err(failed),
    }
}

/// Writes the entries of an auction.
fn write_entries<K: Sink>(
    sink: &mut K,
    gathered: &mut Gathered,
    auction: &Auction,
) -> Result<(), Failed>
    ensures { Gathers (flat_map log.entry_text auction.now.history) gathered.old gathered.new (K.state sink.old) (K.state sink.new) result }
{
    for position in 0..auction.len() {
        write_entry(sink, gathered, auction, position)?;
    }
    Ok(())
}

/// Writes an auction.
fn write_auction<K: Sink>(
    sink: &mut K,
    gathered: &mut Gathered,
    auction: &Auction,
) -> Result<(), Failed>
    ensures { Gathers (log.auction_text auction.now.setup.good auction.now.history) gathered.old gathered.new (K.state sink.old) (K.state sink.new) result }
{
    let line = auction_line(auction.good(), auction.len());
    match gathered.add(sink, line.as_slice()) {
        Ok(()) => write_entries(sink, gathered, auction),
        Err(failed) => Err(failed),
    }
}

/// Writes auctions in order.
fn write_auctions<K: Sink>(
    sink: &mut K,
    gathered: &mut Gathered,
    auctions: &[Auction],
) -> Result<(), Failed>
    ensures { Gathers (flat_map (λ a. log.auction_text a.setup.good a.history) auctions.now) gathered.old gathered.new (K.state sink.old) (K.state sink.new) result }
{
    for auction in auctions {
        write_auction(sink, gathered, auction)?;
    }
    Ok(())
}

/// Writes the entry of the cash history at a position.
fn write_cash_entry<K: Sink>(
    sink: &mut K,
    gathered: &mut Gathered,
    cash: &CashBook,
    position: u32,
) -> Result<(), Failed>
    requires { position < length cash.now }
    ensures { (e : CashEntry) → slice_get cash.now position ≡ Some e →
        Gathers (log.cash_entry_line e) gathered.old gathered.new (K.state sink.old) (K.state sink.new) result }
{
    let Some(entry) = cash.entry(position) else {
        unreachable!()
    };
    gathered.add(sink, cash_entry_line(entry).as_slice())
}

/// Writes the entries of the cash history.
fn write_cash_entries<K: Sink>(
    sink: &mut K,
    gathered: &mut Gathered,
    cash: &CashBook,
    count: u32,
) -> Result<(), Failed>
    requires { count ≡ length cash.now }
    ensures { Gathers (flat_map log.cash_entry_line cash.now) gathered.old gathered.new (K.state sink.old) (K.state sink.new) result }
{
    for position in 0..count {
        write_cash_entry(sink, gathered, cash, position)?;
    }
    Ok(())
}

/// Writes the cash history.
fn write_cash<K: Sink>(sink: &mut K, gathered: &mut Gathered, cash: &CashBook) -> Result<(), Failed>
    ensures { Gathers (log.cash_text cash.now) gathered.old gathered.new (K.state sink.old) (K.state sink.new) result }
{
    let count = cash.board().count;
    match gathered.add(sink, cash_line(count).as_slice()) {
        Ok(()) => write_cash_entries(sink, gathered, cash, count),
        Err(failed) => Err(failed),
    }
}

/// Writes all histories.
fn write_histories<K: Sink>(
    sink: &mut K,
    gathered: &mut Gathered,
    closed: &Closed,
) -> Result<(), Failed>
    ensures { Gathers (log.histories_text (log.histories_of closed.now) closed.now.cash) gathered.old gathered.new (K.state sink.old) (K.state sink.new) result }
{
    match write_auctions(sink, gathered, closed.auctions.as_slice()) {
        Ok(()) => write_cash(sink, gathered, &closed.cash),
        Err(failed) => Err(failed),
    }
}

/// The game meets the requirements of the law of logs.
fn game_known(closed: &Closed)
    ensures { IsPlayed closed.now }
{
    auctions_known(closed.auctions.as_slice());
    cash_known(&closed.cash);
}

/// Writes the lines of the first part.
fn write_lines<K: Sink>(
    sink: &mut K,
    gathered: &mut Gathered,
    head: &LogHead,
    closed: &Closed,
) -> Result<(), Failed>
    ensures { Gathers (log.play_part (head_of head.now) closed.now) gathered.old gathered.new (K.state sink.old) (K.state sink.new) result }
{
    match write_head(sink, gathered, head) {
        Ok(()) => write_histories(sink, gathered, closed),
        Err(failed) => Err(failed),
    }
}

/// Writes the first part of the log of a game: how it was played, the histories of its auctions, and the cash history. It allocates no
/// memory. It returns `Failed` exactly if the sink counted a fault in this call. Then only some of the part's first bytes, or none, were
/// written. This project defines the form of the log.
pub fn write_play_part<K: Sink>(sink: &mut K, head: &LogHead, closed: &Closed) -> Result<(), Failed>
    ensures text { WritesPiece (log.play_part (head_of head.now) closed.now) (K.state sink.old) (K.state sink.new) result }
    // The head and the game meet the requirements of the law of logs.
    ensures known_head { IsHead (head_of head.now) }
    ensures known { IsPlayed closed.now }
{
    head_known(head);
    game_known(closed);
    let mut gathered = Gathered::new();
    match write_lines(sink, &mut gathered, head, closed) {
        Ok(()) => gathered.write(sink),
        Err(failed) => Err(failed),
    }
}
