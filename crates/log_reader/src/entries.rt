// Reads the entries of a history.
ghost use Rattle.std.specs.Prelude.{◌≡◌, ◌≤◌, IfOk, codes};
ghost use Rattle.std.specs.List.{AllByRecursion};
ghost use Rattle.auction_core.specs.Calls.{IsFit};
ghost use Rattle.log_reader.specs.EntryForms as forms;
ghost use Rattle.log_reader.specs.LogReading as reading;

use crate::line_forms::{entry_of, trade_of};
use crate::log_lines::{LogLines, well_formed};
use std::marker::Model;
use tac_base::limits::ENTRY_TRADES;
use tac_base::{Call, Caller, Fills, Good, Reply, Trade};
use text_forms::BadLine;

/// An entry with its trades. Contracts see it as an entry of a history.
#[derive(Debug, Drop)]
pub(crate) struct ReadEntry {
    pub(crate) caller: Caller,
    pub(crate) call: Call,
    pub(crate) reply: Reply,
    pub(crate) trades: Fills,
}

impl Model for ReadEntry {
    ghost use Rattle.auction_rules.specs.History.{Entry};
    ghost use Rattle.log_reader.specs.Histories.{IsEntryRead};

    ghost Value = { Entry };

    ghost view = { λ e. record { caller = e.caller; call = e.call; reply = e.reply; trades = e.trades } };

    ghost invariant = { λ e. IsEntryRead e.call e.trades };
}

/// Reads the line of a trade in the auction of a good.
fn trade_at(good: Good, lines: LogLines<'_>) -> Result<(Trade, LogLines<'_>), BadLine>
    ensures same { result ≡ reading.line_by (forms.trade_of good) lines.entry }
    ensures some { IfOk result (λ x. 1 ≤ x.0.units) }
{
    let (line, left) = lines.due()?;
    let trade = well_formed(line.number(), trade_of(good, line.bytes()))?;
    Ok((trade, left))
}

/// Reads the trades of an entry in the auction of a good.
fn trades_in(good: Good, lines: LogLines<'_>) -> Result<(Fills, LogLines<'_>), BadLine>
    ensures same { result ≡ reading.as_long_as (codes "trade") (λ _. reading.line_by (forms.trade_of good)) ENTRY_TRADES 0 lines.entry }
    ensures some { IfOk result (λ x. AllByRecursion (λ trade. 1 ≤ trade.units) x.0) }
{
    let mut trades = Fills::new();
    let mut left = lines;
    for _i in 0..ENTRY_TRADES {
        if !left.begins(b"trade") {
            return Ok((trades, left));
        }
        let (trade, after) = trade_at(good, left)?;
        trades.push(trade);
        left = after;
    }
    let left = left.without(b"trade")?;
    Ok((trades, left))
}

/// Reads the line of an entry.
fn call_at(lines: LogLines<'_>) -> Result<((Caller, Call, Reply), LogLines<'_>), BadLine>
    ensures same { result ≡ reading.line_by forms.read_entry lines.entry }
    ensures fit { IfOk result (λ x. IsFit x.0.1) }
{
    let (line, left) = lines.due()?;
    let called = well_formed(line.number(), entry_of(line.bytes()))?;
    Ok((called, left))
}

/// Reads an entry in the auction of a good, with its trades.
#[tactic(auto, unfolding(crate::specs::LogReading::entry_in))]
pub(crate) fn entry_in(
    good: Good,
    lines: LogLines<'_>,
) -> Result<(ReadEntry, LogLines<'_>), BadLine>
    ensures { result ≡ reading.entry_in good lines.entry }
{
    let ((caller, call, reply), left) = call_at(lines)?;
    let (trades, left) = trades_in(good, left)?;
    Ok((
        ReadEntry {
            caller,
            call,
            reply,
            trades,
        },
        left,
    ))
}
