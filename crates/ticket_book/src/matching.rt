// How the units of a new bid trade with those that stand.
ghost use Rattle.std.specs.Prelude.{All, ◌≡◌, ◌+◌, ◌<◌, ◌≤◌, ◌++◌, ℕ, length, map, filter};
ghost use Rattle.auction_rules.specs.Units as spec;
ghost use Rattle.auction_rules.specs.Shown.{on_side};
ghost use Rattle.auction_rules.specs.TicketMatch as rule;
ghost use Rattle.auction_rules.specs.BookPairs as book;
ghost use Rattle.ticket_book.specs.Sides.{HaveSame, both, others, after_bid};

use crate::order::first_of_others;
use crate::sides::Sides;
use arrayvec::ArrayVec;
use auction_rules::{BidUnit, Placed, push_units};
use tac_base::limits::{BID_PRICE, BID_UNITS, ENTRY_TRADES};
use tac_base::{Fills, Good, Trade, Unit};

/// Returns whether two units are the same.
fn same_unit(first: &BidUnit, second: &BidUnit) -> bool
    ensures { result ≡ spec.same_unit first.now second.now }
{
    first == second
}

/// Returns whether a unit is among the units.
fn is_among(units: &[BidUnit], unit: &BidUnit) -> bool
    ensures { result ≡ spec.among unit.now units.now }
{
    units.iter().any(|other| same_unit(unit, other))
}

/// Removes the units that are gone.
fn take_away(units: &mut ArrayVec<BidUnit, 16>, gone: &[BidUnit])
    ensures { units.new.items ≡ spec.without units.old.items gone.now }
{
    units.retain(|unit| !is_among(gone, unit));
}

/// Returns the units of a bid.
fn units_of(bid: &Placed) -> ArrayVec<BidUnit, 16>
    ensures units { result.items ≡ spec.units_of bid.now }
    ensures few { length result.items ≤ BID_UNITS }
    ensures priced { All (λ unit. unit.price ≤ BID_PRICE) result.items }
{
    let mut units = ArrayVec::new();
    push_units(&mut units, bid);
    units
}

/// Returns whether the buying price is at least the selling price.
fn crosses(arriving: &BidUnit, standing: &BidUnit) -> bool
    ensures { result ≡ rule.crosses arriving.now standing.now }
{
    if arriving.buys {
        standing.price <= arriving.price
    } else {
        arriving.price <= standing.price
    }
}

/// Returns the unit with its side.
fn with_side(buys: bool, unit: &Unit) -> BidUnit
    ensures { result ≡ on_side buys unit.now }
{
    BidUnit {
        agent: unit.agent,
        buys,
        price: unit.price,
        position: unit.position,
        index: unit.index,
    }
}

/// Returns the trade of one unit at the standing unit's price.
fn trade_of(good: Good, arriving: &BidUnit, standing: &BidUnit) -> Trade
    ensures { result ≡ rule.pair_trade good (arriving.now, standing.now) }
{
    let (buyer, seller) = if arriving.buys {
        (arriving.agent, standing.agent)
    } else {
        (standing.agent, arriving.agent)
    };
    Trade {
        buyer: buyer.party(),
        seller: seller.party(),
        good,
        units: 1,
        price: standing.price,
    }
}

impl Sides {
    /// Returns the first unit of another agent on the other side.
    fn front(&self, arriving: &BidUnit) -> Option<BidUnit>
        ensures { result ≡ rule.best (filter (rule.faces arriving.now) (both self.now)) }
    {
        let buys = !arriving.buys;
        match first_of_others(self.side(buys), arriving.agent.get()) {
            Some(unit) => Some(with_side(buys, &unit)),
            None => None,
        }
    }

    /// Returns the unit that the arriving one trades with: the front of the other side, if the prices cross.
    fn partner(&self, arriving: &BidUnit) -> Option<BidUnit>
        ensures { result ≡ book.partner (both self.now) arriving.now }
    {
        match self.front(arriving) {
            Some(unit) if crosses(arriving, &unit) => Some(unit),
            _ => None,
        }
    }

    /// Trades an arriving unit with its partner, if it has one, and removes the partner from the standing units.
    fn match_unit(
        &mut self,
        good: Good,
        unit: &BidUnit,
        fills: &mut Fills,
        gone: &mut ArrayVec<BidUnit, 32>,
    )
        requires fills { length fills.old < ENTRY_TRADES }
        requires gone { length gone.old.items + 2 ≤ 32 }
        ensures trades { fills.new ≡ fills.old ++ map (rule.pair_trade good) (book.pair_with unit.now (book.partner (both self.old) unit.now)) }
        ensures gone { gone.new.items ≡ gone.old.items ++ book.units_of_pairs (book.pair_with unit.now (book.partner (both self.old) unit.now)) }
        ensures standing { both self.new ≡ book.not_taken (book.partner (both self.old) unit.now) (both self.old) }
        ensures fills_len { length fills.new ≤ length fills.old + 1 }
        ensures gone_len { length gone.new.items ≤ length gone.old.items + 2 }
    {
        match self.partner(unit) {
            Some(other) => {
                fills.push(trade_of(good, unit, &other));
                gone.push(*unit);
                gone.push(other);
                self.take_out(&other);
            }
            None => {}
        }
    }

    /// Trades the arriving units in order with the standing ones, and removes those that traded from the standing units. `fills`
    /// then holds the trades. Returns all units that traded.
    fn match_units(
        &mut self,
        good: Good,
        arriving: &[BidUnit],
        fills: &mut Fills,
    ) -> ArrayVec<BidUnit, 32>
        requires { length arriving.now ≤ BID_UNITS }
        ensures trades { fills.new ≡ book.ticket_trades good (both self.old) arriving.now }
        ensures few { length fills.new ≤ BID_UNITS }
        ensures gone { result.items ≡ book.ticket_gone (both self.old) arriving.now }
        ensures standing { (agent : ℕ) → All (λ u. u.agent ≡ agent) arriving.now →
            others agent (both self.new) ≡ others agent (spec.without (both self.old) (book.ticket_gone (both self.old) arriving.now)) }
    {
        fills.clear();
        let mut gone = ArrayVec::new();
        for unit in arriving {
            self.match_unit(good, unit, fills, &mut gone);
        }
        gone
    }

    /// Trades the units of a bid with those of other agents, and replaces the agent's earlier units with what is left. `fills`
    /// then holds the trades.
    pub(crate) fn trade(&mut self, good: Good, bid: &Placed, fills: &mut Fills)
        ensures trades { fills.new ≡ book.ticket_trades good (both self.old) (spec.units_of bid.now) }
        ensures few { length fills.new ≤ BID_UNITS }
        ensures priced { All (λ u. u.price ≤ BID_PRICE) (both self.old) }
        ensures units { HaveSame (both self.new) (after_bid (both self.old) bid.now.agent (spec.units_of bid.now)) }
    {
        // No standing unit has a price above 10000 dollars.
        let _ = self.side(true);
        let mut left = units_of(bid);
        let gone = self.match_units(good, &left, fills);
        take_away(&mut left, &gone);
        self.take_out_of(bid.agent);
        self.put_all(bid.agent, &left);
    }
}
