// Runs a hotel line by line.
ghost use Rattle.std.specs.Prelude.{◌≡◌, ◌++◌, ◌≤◌, ◌<◌, [], List, length, reverse, OnOk, IfOk, flat_map};
ghost use Rattle.script_run.specs.{asked, hotel_called, hotel_entry_text};
ghost use Rattle.script_run.specs.Prelude.{cap, entry_of, part, AUCTION_ENTRIES};
ghost use Rattle.script_run.specs.Replies as replies;
ghost use Rattle.game_log.specs.LogText as log;

use crate::ScriptFault;
use crate::hotel::line_counts::LineCounts;
use crate::hotel::lines::HotelLine;
use crate::replies::reply_line;
use auction_core::Auction;
use game_log::trade_line;
use game_text::Game;
use std::alloc::{AllocError, Global};
use tac_base::{Good, Memory, Reply, Trade};
use turn_lock::Kept;

/// The hotel's auction, the number of lines run, and the text to be written for them.
#[derive(Drop)]
pub(crate) struct HotelRun {
    auction: Auction,
    counts: LineCounts,
    text: Vec<u8>,
}

/// The hotel's good: the first night of Shoreline Shanties.
fn first_night() -> Good
    ensures { result ≡ 8 }
{
    match Good::new(8) {
        Ok(good) => good,
        Err(_) => unreachable!(),
    }
}

/// Appends the lines of trades.
fn push_trades(text: &mut Vec<u8>, trades: &[Trade]) -> Result<(), AllocError>
    ensures { OnOk result (text.new.items ≡ text.old.items ++ flat_map log.trade_line trades.now) }
{
    for trade in trades {
        text.extend_from_slice(trade_line(trade).as_slice())?;
    }
    Ok(())
}

/// Appends the lines of an entry at a position.
fn push_entry(
    text: &mut Vec<u8>,
    position: u32,
    reply: Reply,
    trades: &[Trade],
) -> Result<(), AllocError>
    ensures { OnOk result (text.new.items ≡ text.old.items ++ (replies.positioned_reply_line position reply ++ flat_map log.trade_line trades.now)) }
{
    text.extend_from_slice(reply_line(position, reply).as_slice())?;
    push_trades(text, trades)
}

/// Makes the call of a line at a position, and appends the lines of its entry.
fn call(
    auction: &mut Auction,
    text: &mut Vec<u8>,
    position: u32,
    line: &HotelLine,
) -> Result<(), AllocError>
    requires room { length (part (λ e. e.caller) auction.old.history (asked line.now).0) < cap (asked line.now).0 }
    requires place { position ≡ length auction.old.history }
    ensures auction { auction.new ≡ hotel_called auction.old (asked line.now) }
    ensures text { OnOk result (text.new.items ≡ text.old.items ++ hotel_entry_text position (entry_of auction.old.setup (reverse auction.old.history) (asked line.now).0 (asked line.now).1)) }
{
    let struck = auction.act(line.caller(), &line.call());
    push_entry(text, position, struck.reply, auction.trades_of(position))
}

impl HotelRun {
    ghost use Rattle.script_run.specs.HotelRuns.{HasRunHotel, RunsHotel, RunsHotelLine};

    /// Opens the hotel, before the first line.
    pub(crate) fn new(alloc: Global) -> Result<HotelRun, Memory>
        ensures { IfOk result (HasRunHotel []) }
    {
        Ok(HotelRun {
            auction: Auction::begin(alloc, first_night(), &Game::default())?,
            counts: LineCounts::new(),
            text: Vec::new(alloc),
        })
    }

    /// The text to be written for the lines run.
    pub(crate) fn text(&self) -> &[u8]
        ensures { result.now ≡ self.now.text.items }
    {
        self.text.as_slice()
    }

    /// The number of lines run.
    pub(crate) fn lines(&self) -> u32
        ensures value { (lines : List HotelLine) → HasRunHotel lines self.now → result ≡ length lines }
        ensures few { result ≤ AUCTION_ENTRIES }
    {
        self.counts.all()
    }

    /// Runs a line. After an error the run is unusable.
    pub(crate) fn step(&mut self, line: &[u8]) -> Result<(), ScriptFault>
        requires { RunsHotel self.old }
        ensures { (lines : List HotelLine) → HasRunHotel lines self.old → RunsHotelLine lines line.now self.new result }
    {
        let position = self.counts.all();
        let asked = match self.counts.judge(line) {
            Ok(asked) => asked,
            Err(reason) => {
                return Err(ScriptFault::Line {
                    line: position + 1,
                    reason: reason.number(),
                });
            }
        };
        match call(&mut self.auction, &mut self.text, position, &asked) {
            Ok(()) => Ok(()),
            Err(_) => Err(ScriptFault::Memory),
        }
    }
}
