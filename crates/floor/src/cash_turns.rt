ghost use Rattle.std.specs.Prelude.{◌≡◌, ◌+◌, ◌≤◌, [], ◌∷◌, ◌++◌};
ghost use Rattle.trade_ledger.specs.declared.cash_calls.CashCall.TheVariants as calls;
ghost use Rattle.trade_ledger.specs.declared.cash_calls.CashReply.TheVariants as replies;
ghost use Rattle.floor.specs.{Entry, due_post, lock_of, lock_id, caller_of, turns_left, made_by, AddsByTurns};
ghost use Rattle.auction_core.specs.Struck.{struck_of};

use auction_core::Struck;
use std::sync::Wait;
use std::time::Clock;
use tac_base::{Agent, Good};
use trade_ledger::{CashBook, CashCall, CashReply};
use turn_lock::{Pass, TurnLock};

/// Posts what each party gained by an entry's trades. An entry without a trade gets no post.
pub(crate) fn post<R: Wait + Clock>(
    rt: &R,
    lock: &TurnLock<CashBook>,
    pass: &mut Pass<CashBook>,
    good: Good,
    position: u32,
    struck: &Struck,
)
    requires own { lock_of pass.old ≡ lock_id lock.now }
    requires left { 1 ≤ turns_left pass.old }
    ensures own { (lock_of pass.new ≡ lock_of pass.old) × (caller_of pass.new ≡ caller_of pass.old) }
    ensures posted { (e : Entry) → struck_of e ≡ struck.now → e.caller ≡ caller_of pass.old → AddsByTurns pass.old pass.new (due_post good position e) }
{
    if struck.trades == 0 {
        return;
    }
    let call = CashCall::Post {
        good,
        position,
        nets: struck.nets,
    };
    lock.call(rt, pass, &call);
}

/// Reads an agent's cash, and returns the position of the reading's entry and the dollars.
pub(crate) fn read<R: Wait + Clock>(
    rt: &R,
    lock: &TurnLock<CashBook>,
    pass: &mut Pass<CashBook>,
    agent: Agent,
) -> (u32, i64)
    requires own { lock_of pass.old ≡ lock_id lock.now }
    requires left { 1 ≤ turns_left pass.old }
    requires agent { caller_of pass.old ≡ agent }
    ensures own { (lock_of pass.new ≡ lock_of pass.old) × (caller_of pass.new ≡ caller_of pass.old) × (turns_left pass.new + 1 ≡ turns_left pass.old) }
    ensures reading { made_by pass.new ≡ made_by pass.old
        ++ (result.0, record { caller = agent; call = calls.Read agent; reply = replies.Cash result.1 }) ∷ [] }
{
    match lock.call(rt, pass, &CashCall::Read { agent }) {
        (position, CashReply::Cash(dollars)) => (position, dollars),
        (_, CashReply::Done) => unreachable!(),
    }
}
