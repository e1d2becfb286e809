// The standing units, each side in order.
ghost use Rattle.std.specs.Prelude.{All, Some, ◌≡◌, ◌+◌, ◌<◌, ◌≤◌, ◌==◌, [], ◌∷◌, ◌++◌, length, count_by};
ghost use Rattle.std.specs.List.{list_any};
ghost use Rattle.ticket_book.specs.{among, not_taken, IsSideSorted, HaveSame, both, of_side, others};
ghost use Rattle.auction_rules.specs.Board as boards;

use crate::order::{first_price, has_units_of, is_on, put, take_out, take_out_of};
use arrayvec::ArrayVec;
use auction_rules::BidUnit;
use std::marker::Model;
use tac_base::limits::{BID_PRICE, BID_UNITS, STANDING_UNITS};
use tac_base::{Agent, Unit};

/// The standing units of a ticket auction: those that buy and those that sell, each in the order in which they trade. Contracts see
/// two lists.
#[derive(Debug, Drop)]
pub(crate) struct Sides {
    buys: ArrayVec<Unit, STANDING_UNITS>,
    sells: ArrayVec<Unit, STANDING_UNITS>,
}

impl Model for Sides {
    ghost use Rattle.ticket_book.specs.Sides.{SortedSides, AreSides, both};

    ghost Value = { SortedSides };

    ghost view = { λ s. record { buys = s.buys.items; sells = s.sells.items } };

    ghost invariant = { λ s. AreSides s.buys.items s.sells.items (both (record { buys = s.buys.items; sells = s.sells.items })) };
}

impl Sides {
    /// Returns sides without units.
    pub(crate) fn new() -> Sides
        ensures { both result ≡ [] }
    {
        Sides {
            buys: ArrayVec::new(),
            sells: ArrayVec::new(),
        }
    }

    /// Returns the units of a side.
    pub(crate) fn side(&self, buys: bool) -> &[Unit]
        ensures value { result.now ≡ of_side self.now buys }
        ensures sorted { IsSideSorted buys (of_side self.now buys) }
        ensures priced { All (λ u. u.price ≤ BID_PRICE) (both self.now) }
    {
        if buys {
            self.buys.as_slice()
        } else {
            self.sells.as_slice()
        }
    }

    /// Returns whether this unit stands.
    pub(crate) fn contains(&self, unit: &BidUnit) -> bool
        ensures { result ≡ among unit.now (both self.now) }
    {
        is_on(self.side(unit.buys), &unit.shown())
    }

    /// Returns whether a unit of the agent stands.
    pub(crate) fn has_units_of(&self, agent: Agent) -> bool
        ensures value { result ≡ list_any (λ u. u.agent == agent) (both self.now) }
        ensures agent { agent ≤ 7 }
    {
        let number = agent.get();
        has_units_of(&self.buys, number) || has_units_of(&self.sells, number)
    }

    /// Returns the highest price of a unit that buys, 0 if there is none.
    pub(crate) fn highest_buy(&self) -> u16
        ensures value { result ≡ boards.highest_buy (both self.now) }
        ensures within { result ≤ BID_PRICE }
    {
        first_price(&self.buys)
    }

    /// Returns the lowest price of a unit that sells, 0 if there is none.
    pub(crate) fn lowest_sell(&self) -> u16
        ensures value { result ≡ boards.lowest_sell (both self.now) }
        ensures within { result ≤ BID_PRICE }
    {
        first_price(&self.sells)
    }

    /// Removes a unit.
    pub(crate) fn take_out(&mut self, taken: &BidUnit)
        ensures { both self.new ≡ not_taken (Some taken.now) (both self.old) }
    {
        let shown = taken.shown();
        if taken.buys {
            take_out(&mut self.buys, &shown);
        } else {
            take_out(&mut self.sells, &shown);
        }
    }

    /// Removes all units of the agent.
    pub(crate) fn take_out_of(&mut self, agent: Agent)
        ensures { both self.new ≡ others agent (both self.old) }
    {
        let number = agent.get();
        take_out_of(&mut self.buys, number);
        take_out_of(&mut self.sells, number);
    }

    /// Inserts a unit at its place. Its agent must have fewer than 16 others.
    fn put(&mut self, unit: &BidUnit)
        requires owned { unit.now.agent ≤ 7 }
        requires priced { unit.now.price ≤ BID_PRICE }
        requires few { count_by (λ u. u.agent == unit.now.agent) (both self.old) < BID_UNITS }
        ensures { HaveSame (both self.new) (both self.old ++ unit.now ∷ []) }
    {
        let shown = unit.shown();
        if unit.buys {
            put(&mut self.buys, true, &shown);
        } else {
            put(&mut self.sells, false, &shown);
        }
    }

    /// Inserts the units of the agent at their places. The agent must have at most 16 units then.
    pub(crate) fn put_all(&mut self, agent: Agent, units: &[BidUnit])
        requires owned { All (λ u. u.agent ≡ agent) units.now }
        requires priced { All (λ u. u.price ≤ BID_PRICE) units.now }
        requires few { count_by (λ u. u.agent == agent) (both self.old) + length units.now ≤ BID_UNITS }
        ensures { HaveSame (both self.new) (both self.old ++ units.now) }
    {
        // An agent's number is at most 7.
        let _ = agent.get();
        for unit in units {
            self.put(unit);
        }
    }

    /// Removes all units.
    pub(crate) fn clear(&mut self)
        ensures { both self.new ≡ [] }
    {
        self.buys.clear();
        self.sells.clear();
    }
}
