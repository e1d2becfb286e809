// Reads the cash history.
ghost use Rattle.std.specs.Prelude.{◌≡◌, ◌≤◌, IfOk};
ghost use Rattle.tac_base.specs.declared.limits.TheConstants.{CASH_ENTRIES};
ghost use Rattle.log_reader.specs.EntryForms as forms;
ghost use Rattle.log_reader.specs.LogReading as reading;
ghost use Rattle.log_reader.specs.Faults.{or_log_fault, IsLogReading};

use crate::LogFault;
use crate::line_forms::{cash_entry_of, cash_of};
use crate::log_lines::{LogLines, well_formed};
use crate::parts::{LogPart, read_all};
use std::alloc::Global;
use text_forms::BadLine;
use trade_ledger::CashEntry;

/// The entries of the cash history, in order.
#[derive(Drop)]
struct CashEntries;

impl LogPart for CashEntries {
    type Value = CashEntry;

    ghost gives = { λ _ _ left. reading.line_by forms.cash_entry_of left };

    ghost most = { λ _. CASH_ENTRIES };

    fn read<'a>(
        &self,
        alloc: Global,
        number: u32,
        lines: LogLines<'a>,
    ) -> Result<(CashEntry, LogLines<'a>), LogFault> {
        Ok(cash_entry_at(lines)?)
    }
}

/// Reads the line of an entry.
fn cash_entry_at(lines: LogLines<'_>) -> Result<(CashEntry, LogLines<'_>), BadLine>
    ensures { result ≡ reading.line_by forms.cash_entry_of lines.entry }
{
    let (line, left) = lines.due()?;
    let entry = well_formed(line.number(), cash_entry_of(line.bytes()))?;
    Ok((entry, left))
}

/// Reads the line before the entries, which gives their number.
fn cash_at(lines: LogLines<'_>) -> Result<(u32, LogLines<'_>), BadLine>
    ensures same { result ≡ reading.line_by forms.read_cash_line lines.entry }
    ensures few { IfOk result (λ x. x.0 ≤ CASH_ENTRIES) }
{
    let (line, left) = lines.due()?;
    let count = well_formed(line.number(), cash_of(line.bytes()))?;
    Ok((count, left))
}

/// Reads the cash history.
pub(crate) fn cash_in(
    alloc: Global,
    lines: LogLines<'_>,
) -> Result<(Vec<CashEntry>, LogLines<'_>), LogFault>
    ensures { IsLogReading (λ x. (x.0.items, x.1)) result (or_log_fault (reading.cash_in lines.entry)) }
{
    let (count, left) = cash_at(lines)?;
    read_all(alloc, &CashEntries, count, left)
}
