ghost use Rattle.std.specs.Prelude.{◌≡◌, ◌∷◌, [], ◌≤◌, pos, ◌+ℤ◌, slice_index_or, slice_set};
ghost use Rattle.trade_ledger.specs.Holdings.{held_after, sum_held, Stays, NoneLeaves};

use std::marker::Model;
use tac_base::{Party, Trade};

/// How many units of one good each party holds: the agents 0..7, then the house. A party that sells more than it has holds less than 0.
#[derive(Debug, Drop)]
pub struct GoodBook {
    holdings: [i32; 9],
}

impl Model for GoodBook {
    ghost use Rattle.std.specs.Prelude.{List, ℤ};

    ghost Value = { List ℤ };

    ghost view = { λ b. b.holdings };
}

/// Returns the index of a party's holding.
fn place(party: Party) -> usize
    ensures value { result ≡ party }
    ensures range { result ≤ 8 }
{
    usize::from(party.get())
}

/// Adds units to one holding.
fn add(holdings: &mut [i32; 9], place: usize, units: i32)
    requires place { place ≤ 8 }
    requires stays { Stays (slice_index_or holdings.old place (pos 0)) (slice_index_or holdings.old place (pos 0) +ℤ units) }
    ensures { holdings.new ≡ slice_set holdings.old place (slice_index_or holdings.old place (pos 0) +ℤ units) }
{
    holdings[place] += units;
}

impl GoodBook {
    /// Returns the book at the start: each party holds its endowment.
    pub fn new(endow: [i32; 9]) -> GoodBook
        ensures { result ≡ endow }
    {
        GoodBook { holdings: endow }
    }

    /// Moves the units of a trade from its seller to its buyer. It must not take a holding out of -1,000,000..1,000,000.
    pub fn apply(&mut self, trade: &Trade)
        requires { NoneLeaves self.old (trade.now ∷ []) }
        ensures held { self.new ≡ held_after self.old (trade.now ∷ []) }
        ensures sum { sum_held self.new ≡ sum_held self.old }
    {
        let units = i32::from(trade.units);
        let buyer = place(trade.buyer);
        let seller = place(trade.seller);
        let holdings = &mut self.holdings;
        if buyer == seller {
            return;
        }
        add(holdings, buyer, units);
        add(holdings, seller, -units);
    }

    /// Returns how many units the party holds.
    pub fn holding(&self, party: Party) -> i32
        ensures { result ≡ slice_index_or self.now party (pos 0) }
    {
        self.holdings[place(party)]
    }
}
