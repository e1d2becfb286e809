ghost use Rattle.std.specs.Prelude.{◌≡◌, ◌+◌, ◌<◌, ◌≤◌, ◌^◌, ◌++◌, [], ◌∷◌, Some, IfSome, IfOk, OnOk, OnErr, length, map, slice_get, take, drop, vec_len, option_copied};
ghost use Rattle.log_reader.specs.{AUCTION_ENTRIES, ENTRY_TRADES, IsFit, IsShown, entry_behind, or_log_fault, IsLogReading};
ghost use Rattle.log_reader.specs.EntryForms as forms;
ghost use Rattle.log_reader.specs.LogReading as reading;
ghost use Rattle.log_reader.specs.Histories.{IsEntryRead};

use crate::LogFault;
use crate::entries::{ReadEntry, entry_in};
use crate::line_forms::auction_of;
use crate::log_lines::{LogLines, well_formed};
use crate::parts::LogPart;
use std::alloc::Global;
use std::marker::Model;
use tac_base::{Entry, Good, Memory, Trade};
use text_forms::BadLine;

/// The history of a good in a log. Contracts see it as its entries with their trades, the oldest entry first.
#[derive(Debug, Drop)]
pub struct LogHistory {
    /// The entries, the oldest first: at most 8,256.
    pub entries: Vec<Entry>,
    /// The trades of all entries, in the order of the entries: at most 128 of each.
    pub trades: Vec<Trade>,
}

impl Model for LogHistory {
    ghost use Rattle.std.specs.Prelude.{List};
    ghost use Rattle.auction_rules.specs.History.{Entry};
    ghost use Rattle.auction_core.specs.Stored.{stored};
    ghost use Rattle.log_reader.specs.Histories.{IsHistoryKept};

    ghost Value = { List Entry };

    ghost view = { λ h. stored h.entries.items h.trades.items };

    ghost invariant = { λ h. IsHistoryKept h.entries.items h.trades.items };
}

impl LogHistory {
    /// The number of entries in the history.
    pub fn len(&self) -> u32
        ensures value { result ≡ length self.now }
        ensures few { result ≤ AUCTION_ENTRIES }
    {
        self.entries.len() as u32
    }

    /// The entry at a position; None exactly past the end.
    pub fn entry(&self, position: u32) -> Option<&Entry>
        ensures shown { IsShown self.now position (option_copied result) }
        // The entry's call meets the requirement of an auction's calls.
        ensures fit { IfSome (option_copied result) (λ entry. IsFit entry.call) }
    {
        entry_at(&self.entries, position)
    }

    /// The trades of the entry at a position, which the history must have.
    pub fn trades_of(&self, position: u32) -> &[Trade]
        requires { position < length self.now }
        ensures { slice_get (map (λ e. e.trades) self.now) position ≡ Some result.now }
    {
        let entry = &self.entries[position as usize];
        part_of(
            &self.trades,
            entry.first_trade as usize,
            usize::from(entry.trades),
        )
    }

    /// A history without entries.
    fn new(alloc: Global) -> LogHistory
        ensures { result ≡ [] }
    {
        LogHistory {
            entries: Vec::new(alloc),
            trades: Vec::new(alloc),
        }
    }

    /// Adds an entry at the end. After `Memory` nothing was added.
    fn push(&mut self, entry: ReadEntry) -> Result<(), Memory>
        requires { length self.old < AUCTION_ENTRIES }
        ensures pushed { OnOk result (self.new ≡ self.old ++ entry ∷ []) }
        ensures memory { OnErr result (self.new ≡ self.old) }
    {
        store(&mut self.entries, &mut self.trades, entry)
    }
}

/// The entry at a position; None past the end.
fn entry_at(entries: &[Entry], position: u32) -> Option<&Entry>
    ensures { option_copied result ≡ slice_get entries.now position }
{
    entries.get(position as usize)
}

/// This many trades, from the one numbered `first`.
fn part_of(trades: &[Trade], first: usize, count: usize) -> &[Trade]
    requires { first + count ≤ length trades.now }
    ensures { result.now ≡ take count (drop first trades.now) }
{
    &trades[first..first + count]
}

/// Stores an entry and its trades after the others. After `Memory` nothing was stored.
fn store(entries: &mut Vec<Entry>, trades: &mut Vec<Trade>, entry: ReadEntry) -> Result<(), Memory>
    requires { vec_len trades.old < 2 ^ 32 }
    ensures entries { OnOk result (entries.new.items ≡ entries.old.items ++ entry_behind trades.old.items entry.caller entry.call entry.reply entry.trades ∷ []) }
    ensures trades { OnOk result (trades.new.items ≡ trades.old.items ++ entry.trades) }
    ensures read { IsEntryRead entry.call entry.trades }
    ensures few { length entry.trades ≤ ENTRY_TRADES }
    ensures entries_kept { OnErr result (entries.new.items ≡ entries.old.items) }
    ensures trades_kept { OnErr result (trades.new.items ≡ trades.old.items) }
{
    let fills = entry.trades.as_slice();
    let first_trade = trades.len() as u32;
    entries.reserve(1)?;
    trades.extend_from_slice(fills)?;
    let count = fills.len() as u8;
    entries.push_reserved(Entry {
        caller: entry.caller,
        call: entry.call,
        reply: entry.reply,
        first_trade,
        trades: count,
    });
    Ok(())
}

/// The histories of the goods, in order.
#[derive(Drop)]
pub(crate) struct Histories;

impl LogPart for Histories {
    type Value = LogHistory;

    ghost gives = { λ _ good left. reading.history_in good left };

    ghost most = { λ _. 28 };

    fn read<'a>(
        &self,
        alloc: Global,
        number: u32,
        lines: LogLines<'a>,
    ) -> Result<(LogHistory, LogLines<'a>), LogFault> {
        history_in(alloc, Good::new(number as u8).unwrap(), lines)
    }
}

/// Reads the line before the entries of a good, which gives their number.
fn auction_at(good: Good, lines: LogLines<'_>) -> Result<(u32, LogLines<'_>), BadLine>
    ensures same { result ≡ reading.line_by (forms.auction_of good) lines.entry }
    ensures few { IfOk result (λ x. x.0 ≤ AUCTION_ENTRIES) }
{
    let (line, left) = lines.due()?;
    let count = well_formed(line.number(), auction_of(good, line.bytes()))?;
    Ok((count, left))
}

/// Reads the history of a good.
fn history_in(
    alloc: Global,
    good: Good,
    lines: LogLines<'_>,
) -> Result<(LogHistory, LogLines<'_>), LogFault>
    ensures { IsLogReading (λ x. x) result (or_log_fault (reading.history_in good lines.entry)) }
{
    let (count, mut left) = auction_at(good, lines)?;
    let mut history = LogHistory::new(alloc);
    for _i in 0..count {
        let (entry, after) = entry_in(good, left)?;
        if history.push(entry).is_err() {
            return Err(LogFault::Memory);
        }
        left = after;
    }
    Ok((history, left))
}
