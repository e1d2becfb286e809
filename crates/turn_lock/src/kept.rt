ghost use Rattle.std.specs.Prelude.{◌≡◌, ℕ, ◌<◌, ◌≤◌, List, [], ◌∷◌, ◌++◌, length};
ghost use Rattle.tac_base.specs.declared.limits.TheConstants.{SHOWN_PRICE};
ghost use Rattle.tac_base.specs.declared.calls.Board.{Board};
ghost use Rattle.tac_base.specs.Goods.{clock};
ghost use Rattle.turn_lock.specs.Part.{part};

use tac_base::{Board, Caller};

/// A value that a turn lock keeps. It represents a setup, fixed when the value is made, and a history, oldest entry first.
/// The history of every value is legal.
pub trait Kept: Drop + Send {
    /// The type of calls.
    type Call;

    /// The type of replies.
    type Reply;

    /// What is fixed when the value is made. Only contracts use it.
    type Setup;

    /// The type of the history's entries. Only contracts use it.
    type Entry;

    ghost setup: { Self → Self.Setup };

    ghost history: { Self → List Self.Entry };

    // which histories are legal for a setup
    ghost legal: { Self.Setup → List Self.Entry → Type 0 };

    // the board of a history
    ghost board: { Self.Setup → List Self.Entry → Board };

    // the caller and the call of an entry, and the reply that it records
    ghost caller_of: { Self.Entry → ℕ };

    ghost call_of: { Self.Entry → Self.Call };

    ghost answer: { Self.Entry → Self.Reply };

    // which calls a caller may make
    ghost fit: { ℕ → Self.Call → Type 0 };

    // the most entries that a caller may have
    ghost cap: { ℕ → ℕ };

    /// Appends the entry of the call and returns the reply that the entry records. It allocates no memory.
    fn act(&mut self, caller: Caller, call: &Self::Call) -> Self::Reply
        requires fit { fit caller call.now }
        requires room { length (part caller_of (history self.old) caller) < cap caller }
        ensures setup { setup self.new ≡ setup self.old }
        ensures legal { legal (setup self.new) (history self.new) }
        ensures entry { (e : Self.Entry) × (history self.new ≡ history self.old ++ e ∷ [])
            × (caller_of e ≡ caller) × (call_of e ≡ call.now) × (answer e ≡ result) };

    /// Returns the board of the history, which has fewer than 16,777,216 entries. Its prices are at most 10,001 dollars.
    fn board(&self) -> Board
        ensures board { result ≡ board (setup self.now) (history self.now) }
        ensures count { result.count ≡ length (history self.now) }
        ensures small { (result.count < 16777216) × (result.bid ≤ SHOWN_PRICE) × (result.ask ≤ SHOWN_PRICE) }
        ensures legal { legal (setup self.now) (history self.now) }
        ensures capped { (caller : ℕ) → caller ≤ clock → length (part caller_of (history self.now) caller) ≤ cap caller };
}
