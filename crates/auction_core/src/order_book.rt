ghost use Rattle.std.specs.Prelude.{All, ◌≡◌, ◌+◌, ◌==◌, if◌then◌else◌, [], ℕ, length, List, pos, slice_index_or, Some, None};
ghost use Rattle.auction_core.specs.{clock, Setup, Follows, Spends, IsShort, held_by, IsFit};
ghost use Rattle.auction_rules.specs.History.{Entry};

use tac_base::limits::BID_UNITS;
use tac_base::{Agent, Call, Caller, Fills, Left, Reply};
use trade_ledger::GoodBook;

/// A book that answers calls by the rules, for any kind of good.
pub(crate) trait OrderBook {
    // the book stands for this past of an auction with this setup
    ghost stands: { Self → Setup → List Entry → Type 0 };

    // how many units the calls of the clock alone may still trade
    ghost units_left: { Self → ℕ };

    /// Makes a call by the rules, given the holdings of all parties. `fills` then holds the trades.
    fn act(
        &mut self,
        held: &GoodBook,
        at: u32,
        caller: Caller,
        call: &Call,
        fills: &mut Fills,
    ) -> Reply
        requires empty { fills.old ≡ [] }
        requires fit { IsFit call.now }
        ensures follows { (setup : Setup) (past : List Entry) → stands self.old setup past → held.now ≡ held_by setup past → at ≡ length past →
            Follows setup past caller call.now result fills.new (stands self.new setup) }
        ensures units { Spends (units_left self.old + BID_UNITS) (units_left self.new) fills.new }
        ensures short { All IsShort fills.new };
}

/// Returns the caller as an agent, or `None` for the clock.
pub(crate) fn agent_of(caller: Caller) -> Option<Agent>
    ensures { result ≡ (if caller == clock then None else Some caller) }
{
    Agent::new(caller.get()).ok()
}

/// Returns the reply to an agent's reading: how many units it holds, and its standing points.
pub(crate) fn owned(held: &GoodBook, agent: Agent, left: Left) -> Reply
    ensures { result ≡ Reply.Own (slice_index_or held.now agent (pos 0)) left }
{
    Reply::Own {
        holding: held.holding(agent.party()),
        left,
    }
}
