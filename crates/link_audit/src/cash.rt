// Finds an agent's next entry in the cash history.
ghost use Rattle.std.specs.Prelude.{◌≡◌, ◌≤◌, ◌↔◌, ℕ, ℤ, length, IsTrue, MatchOption};
ghost use Rattle.link_audit.specs.{Nets, CASH_ENTRIES, IsLoggedCashEntry, reading, FindsNext, cash_caller};
ghost use Rattle.trade_ledger.specs.declared.cash_calls.CashCall.TheVariants as cash_calls;

use log_reader::Log;
use tac_base::{Agent, Good};
use trade_ledger::{CashCall, CashEntry, CashReply};

/// The position of the agent's next entry in the cash history, at or after a position.
pub(crate) fn next_cash(log: &Log, from: u32, agent: Agent) -> Option<u32>
    ensures next { FindsNext cash_caller agent from log.now.cash result }
    ensures few { length log.now.cash ≤ CASH_ENTRIES }
{
    let cash = log.cash();
    for position in from as usize..cash.len() {
        if cash[position].caller == agent.caller() {
            return Some(position as u32);
        }
    }
    None
}

/// The dollars that an entry in its ranges shows, if it is a reading.
pub(crate) fn amount_read(entry: &CashEntry) -> Option<i64>
    requires { IsLoggedCashEntry entry.now }
    ensures { MatchOption result ((agent : ℕ) (dollars : ℤ) → reading agent dollars ≡ entry.now → ⊥) (λ dollars. reading entry.now.caller dollars ≡ entry.now) }
{
    match entry.reply {
        CashReply::Cash(dollars) => Some(dollars),
        CashReply::Done => None,
    }
}

/// Whether an entry is a post that names this place of an auction.
pub(crate) fn is_post(entry: &CashEntry, good: Good, place: u32) -> bool
    ensures { IsTrue result ↔ ((nets : Nets) × (entry.now.call ≡ cash_calls.Post good place nets)) }
{
    match &entry.call {
        CashCall::Post {
            good: other,
            position,
            ..
        } => *other == good && *position == place,
        CashCall::Read { .. } => false,
    }
}
