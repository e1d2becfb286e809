// Compares the readings of a cash history with the posts before them.
ghost use Rattle.std.specs.Prelude.{◌≡◌, ℕ, ◌<◌, ◌≤◌, ◌↔◌, ◌+ℤ◌, List, pos, length, slice_index_or, IsTrue};
ghost use Rattle.log_audit.specs.{CASH_ENTRIES, gain_of, IsWithin, CashEntry, HasTrueReading, IsTrueReading, IsLowest, AreTotals};

use trade_ledger::{CashCall, CashEntry, CashReply, add_nets};

/// Whether an entry, if it is a reading, shows its agent's total. It adds what a post gives to the totals.
fn reads_total(totals: &mut [i64; 9], entry: &CashEntry) -> bool
    requires { (party : ℕ) → party < 9 → IsWithin 600000000000000 (slice_index_or totals.old party (pos 0)) }
    ensures answer { (before : List CashEntry) → AreTotals before totals.old → IsTrue result ↔ IsTrueReading before entry.now entry.now.call }
    ensures totals { (party : ℕ) → party < 9 →
        slice_index_or totals.new party (pos 0) ≡ slice_index_or totals.old party (pos 0) +ℤ gain_of entry.now.call party }
    ensures small { (party : ℕ) → party < 9 → IsWithin 2147483648 (gain_of entry.now.call party) }
{
    match &entry.call {
        CashCall::Post { nets, .. } => {
            add_nets(totals, nets);
            true
        }
        CashCall::Read { agent } => {
            entry.reply == CashReply::Cash(totals[usize::from(agent.get())])
        }
    }
}

/// The lowest position of a reading that does not show what the posts before it give its agent, if any.
pub(crate) fn false_reading(cash: &[CashEntry]) -> Option<u32>
    requires { length cash.now ≤ CASH_ENTRIES }
    ensures { IsLowest (HasTrueReading cash.now) result }
{
    let mut totals = [0; 9];
    for (position, entry) in cash.iter().enumerate() {
        if !reads_total(&mut totals, entry) {
            return Some(position as u32);
        }
    }
    None
}
