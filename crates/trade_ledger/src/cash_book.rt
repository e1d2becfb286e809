ghost use Rattle.std.specs.Prelude.{All, ◌≡◌, ℕ, ◌<◌, ◌≤ℤ◌, ◌+ℤ◌, pos, length, slice_index_or};
ghost use Rattle.tac_base.specs.Ranges.{IsNet};
ghost use Rattle.trade_ledger.specs.{gain_of, reply_by, IsWithin, IsCashCall};

use crate::cash_calls::{CashCall, CashEntry, CashReply};
use std::alloc::Global;
use std::marker::Model;
use tac_base::limits::CASH_ENTRIES;
use tac_base::{Board, Caller, Memory, Nets, Party};
use turn_lock::Kept;

/// The cash history of a game, and what each party has gained in it.
#[derive(Drop)]
pub struct CashBook {
    entries: Vec<CashEntry>,
    /// The sum of each party's nets in all posts, in dollars.
    totals: [i64; 9],
}

impl Model for CashBook {
    ghost use Rattle.std.specs.Prelude.{List, vec_capacity};
    ghost use Rattle.trade_ledger.specs.declared.cash_calls.CashEntry.{CashEntry};
    ghost use Rattle.trade_ledger.specs.CashKeeping.{IsCashSound};

    ghost Value = { List CashEntry };

    ghost view = { λ b. b.entries.items };

    ghost invariant = { λ b. IsCashSound b.entries.items b.totals (vec_capacity b.entries) };
}

/// Adds the nets of a post to the totals of the nine parties, in dollars.
pub fn add_nets(totals: &mut [i64; 9], nets: &Nets)
    requires { (party : ℕ) → party < 9 → IsWithin 600000000000000 (slice_index_or totals.old party (pos 0)) }
    ensures totals { (party : ℕ) → party < 9 →
        slice_index_or totals.new party (pos 0) ≡ slice_index_or totals.old party (pos 0) +ℤ slice_index_or nets.now.dollars party (pos 0) }
    ensures small { (party : ℕ) → party < 9 → IsWithin 2147483648 (slice_index_or nets.now.dollars party (pos 0)) }
    ensures nine { length nets.now.dollars ≡ 9 }
    ensures each { All IsNet nets.now.dollars }
{
    for (party, total) in totals.iter_mut().enumerate() {
        *total += i64::from(nets.dollars[party]);
    }
}

/// Returns the reply to a call, given the totals so far, and adds the call's nets to them.
fn settle(totals: &mut [i64; 9], call: &CashCall) -> CashReply
    requires { (party : ℕ) → party < 9 → IsWithin 600000000000000 (slice_index_or totals.old party (pos 0)) }
    ensures reply { result ≡ reply_by (λ party. slice_index_or totals.old party (pos 0)) call.now }
    ensures totals { (party : ℕ) → party < 9 →
        slice_index_or totals.new party (pos 0) ≡ slice_index_or totals.old party (pos 0) +ℤ gain_of call.now party }
    ensures small { (party : ℕ) → party < 9 → IsWithin 2147483648 (gain_of call.now party) }
    ensures ranged { IsCashCall call.now }
{
    match call {
        CashCall::Post {
            good,
            position,
            nets,
        } => {
            let _numbers = (good.get(), *position);
            add_nets(totals, nets);
            CashReply::Done
        }
        CashCall::Read { agent } => CashReply::Cash(totals[usize::from(agent.get())]),
    }
}

impl CashBook {
    ghost use Rattle.std.specs.Prelude.{All, ◌≡◌, ◌≤◌, [], IfOk, slice_get, length};
    ghost use Rattle.std.specs.Option.{option_copied};
    ghost use Rattle.trade_ledger.specs.CashKeeping.{IsLoggableCash};
    ghost use Rattle.trade_ledger.specs.CashHistory.{cash_total};

    /// Returns an empty book with room for all entries of a game. After `Memory` nothing was made.
    pub fn begin(alloc: Global) -> Result<CashBook, Memory>
        ensures { IfOk result (λ b. b ≡ []) }
    {
        let entries = Vec::with_capacity(alloc, CASH_ENTRIES as usize)?;
        Ok(CashBook {
            entries,
            totals: [0; 9],
        })
    }

    /// Returns the entry at a position, or `None` exactly if past the end. A log can show each entry.
    #[tactic(auto, using(crate::proofs::CashSteps::few_entries))]
    pub fn entry(&self, position: u32) -> Option<&CashEntry>
        ensures value { option_copied result ≡ slice_get self.now position }
        ensures few { length self.now ≤ CASH_ENTRIES }
        ensures loggable { All IsLoggableCash self.now }
    {
        self.entries.get(position as usize)
    }

    /// Returns the party's summed nets in all posts: at most 600,000,000,000,000 dollars, gained or lost.
    #[tactic(auto, using(crate::proofs::CashSteps::few_entries, crate::proofs::CashSteps::within_all))]
    pub fn total(&self, party: Party) -> i64
        ensures value { result ≡ cash_total self.now party }
        ensures range { IsWithin 600000000000000 result }
    {
        self.totals[usize::from(party.get())]
    }
}

impl Kept for CashBook {
    ghost use Rattle.trade_ledger.specs.CashHistory.{IsLegalCash, IsFitCash, cash_cap, cash_board};

    type Call = CashCall;

    type Reply = CashReply;

    type Setup = ();

    type Entry = CashEntry;

    ghost setup = { λ _. tt };

    ghost history = { λ h. h };

    ghost legal = { λ _ h. IsLegalCash h };

    ghost board = { λ _ h. cash_board h };

    ghost caller_of = { λ e. e.caller };

    ghost call_of = { λ e. e.call };

    ghost answer = { λ e. e.reply };

    ghost fit = { IsFitCash };

    ghost cap = { cash_cap };

    fn act(&mut self, caller: Caller, call: &CashCall) -> CashReply {
        let reply = settle(&mut self.totals, call);
        let entry = CashEntry {
            caller,
            call: *call,
            reply,
        };
        self.entries.push_reserved(entry);
        reply
    }

    fn board(&self) -> Board {
        Board {
            count: self.entries.len() as u32,
            bid: 0,
            ask: 0,
            closed: false,
        }
    }
}
