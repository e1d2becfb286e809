// The order of a hotel's units.
ghost use Rattle.std.specs.Prelude.{IfSome, ◌≡◌, ◌+◌, ◌<◌, ◌≤◌, ℕ, not, ◌==◌, length, sum_by, filter, All, position};
ghost use Rattle.std.specs.List.{position_or_len};
ghost use Rattle.hotel_book.specs.{Unit as ShownUnit, units_of, shown_unit, ranks_first, AreSortedUnits};

use arrayvec::ArrayVec;
use auction_rules::{BidUnit, Placed, push_units};
use tac_base::Unit;
use tac_base::limits::{BID_PRICE, BID_UNITS, STANDING_UNITS};

/// Returns whether the first unit precedes the second.
fn precedes(first: &Unit, second: &Unit) -> bool
    ensures { result ≡ ranks_first first.now second.now }
{
    second.price < first.price
        || (first.price == second.price
            && (first.position < second.position
                || (first.position == second.position && first.index < second.index)))
}

/// Returns the index of the first unit that the given unit precedes.
fn first_after(units: &[Unit], unit: &Unit) -> Option<usize>
    ensures place { result ≡ position (ranks_first unit.now) units.now }
    ensures within { IfSome result (λ place. place < length units.now) }
{
    units.iter().position(|other| precedes(unit, other))
}

/// Returns the index of the first unit that the given unit precedes, or else the number of units.
#[tactic(auto, using(auction_rules::proofs::Sorting::place_at, auction_rules::proofs::Sorting::place_at_end))]
fn place_of(units: &[Unit], unit: &Unit) -> usize
    ensures place { result ≡ position_or_len (ranks_first unit.now) units.now }
    ensures within { result ≤ length units.now }
{
    match first_after(units, unit) {
        Some(place) => place,
        None => units.len(),
    }
}

/// Inserts a unit at its place among ordered units.
fn put(units: &mut ArrayVec<Unit, STANDING_UNITS>, unit: &Unit)
    requires room { length units.old.items < STANDING_UNITS }
    requires order { AreSortedUnits units.old.items }
    requires price { unit.now.price ≤ BID_PRICE }
    requires prices { All (λ u. u.price ≤ BID_PRICE) units.old.items }
    ensures len { length units.new.items ≡ length units.old.items + 1 }
    ensures order { AreSortedUnits units.new.items }
    ensures prices { All (λ u. u.price ≤ BID_PRICE) units.new.items }
    ensures units { (weight : ShownUnit → ℕ) → sum_by weight units.new.items ≡ sum_by weight units.old.items + weight unit.now }
{
    let place = place_of(units, unit);
    units.insert(place, *unit);
}

/// Inserts the units of a bid at their places among ordered units.
pub(crate) fn put_all(units: &mut ArrayVec<Unit, STANDING_UNITS>, bid: &Placed)
    requires room { length units.old.items + BID_UNITS ≤ STANDING_UNITS }
    requires order { AreSortedUnits units.old.items }
    requires prices { All (λ u. u.price ≤ BID_PRICE) units.old.items }
    ensures few { length (units_of bid.now) ≤ BID_UNITS }
    ensures order { AreSortedUnits units.new.items }
    ensures prices { All (λ u. u.price ≤ BID_PRICE) units.new.items }
    ensures units { (weight : ShownUnit → ℕ) →
        sum_by weight units.new.items ≡ sum_by weight units.old.items + sum_by (λ u. weight (shown_unit u)) (units_of bid.now) }
{
    let mut new: ArrayVec<BidUnit, 16> = ArrayVec::new();
    push_units(&mut new, bid);
    for unit in new.as_slice() {
        put(units, &unit.shown());
    }
}

/// Removes the units of the agent with this number.
pub(crate) fn take_out(units: &mut ArrayVec<Unit, STANDING_UNITS>, number: u8)
    ensures { units.new.items ≡ filter (λ u. not (u.agent == number)) units.old.items }
{
    units.retain(|unit| unit.agent.get() != number);
}
