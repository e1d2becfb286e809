// The order of a side's units.
ghost use Rattle.std.specs.Prelude.{IfSome, ◌≡◌, ◌<◌, ◌≤◌, ◌==◌, not, length, filter, map, insert, position, find, slice_index_or};
ghost use Rattle.std.specs.List.{position_or_len, list_any};
ghost use Rattle.ticket_book.specs.Sides as spec;

use arrayvec::ArrayVec;
use tac_base::Unit;
use tac_base::limits::STANDING_UNITS;

/// Returns whether the first of two units of a side goes before the second.
fn goes_first(buys: bool, first: &Unit, second: &Unit) -> bool
    ensures { result ≡ spec.goes_first buys first.now second.now }
{
    let better = if buys {
        second.price < first.price
    } else {
        first.price < second.price
    };
    better
        || (first.price == second.price
            && (first.position < second.position
                || (first.position == second.position && first.index < second.index)))
}

/// Returns whether two units of a side are the same.
fn is_same(first: &Unit, second: &Unit) -> bool
    ensures { result ≡ spec.is_same first.now second.now }
{
    first == second
}

/// Returns the index of the first unit of a side that the given unit goes before.
fn first_after(units: &[Unit], buys: bool, unit: &Unit) -> Option<usize>
    ensures place { result ≡ position (spec.goes_first buys unit.now) units.now }
    ensures within { IfSome result (λ place. place < length units.now) }
{
    units.iter().position(|other| goes_first(buys, unit, other))
}

/// Returns the index of the first unit that the given unit goes before, or the number of units if there is none.
#[tactic(auto, using(auction_rules::proofs::Sorting::place_at, auction_rules::proofs::Sorting::place_at_end))]
fn place_of(units: &[Unit], buys: bool, unit: &Unit) -> usize
    ensures place { result ≡ position_or_len (spec.goes_first buys unit.now) units.now }
    ensures within { result ≤ length units.now }
{
    match first_after(units, buys, unit) {
        Some(place) => place,
        None => units.len(),
    }
}

/// Inserts a unit at its place in the order of a side.
pub(crate) fn put(units: &mut ArrayVec<Unit, STANDING_UNITS>, buys: bool, unit: &Unit)
    requires { length units.old.items < STANDING_UNITS }
    ensures { units.new.items ≡ insert units.old.items (position_or_len (spec.goes_first buys unit.now) units.old.items) unit.now }
{
    let place = place_of(units, buys, unit);
    units.insert(place, *unit);
}

/// Removes a unit from a side.
pub(crate) fn take_out(units: &mut ArrayVec<Unit, STANDING_UNITS>, taken: &Unit)
    ensures { units.new.items ≡ filter (λ u. not (spec.is_same u taken.now)) units.old.items }
{
    units.retain(|unit| !is_same(unit, taken));
}

/// Removes the units of the agent with this number from a side.
pub(crate) fn take_out_of(units: &mut ArrayVec<Unit, STANDING_UNITS>, number: u8)
    ensures { units.new.items ≡ filter (λ u. not (u.agent == number)) units.old.items }
{
    units.retain(|unit| unit.agent.get() != number);
}

/// Returns whether a unit is on a side.
pub(crate) fn is_on(units: &[Unit], unit: &Unit) -> bool
    ensures { result ≡ list_any (spec.is_same unit.now) units.now }
{
    units.iter().any(|other| is_same(unit, other))
}

/// Returns the first unit of a side that does not belong to the agent with this number.
pub(crate) fn first_of_others(units: &[Unit], number: u8) -> Option<Unit>
    ensures { result ≡ find (λ u. not (number == u.agent)) units.now }
{
    units
        .iter()
        .copied()
        .find(|unit| number != unit.agent.get())
}

/// Returns whether the agent with this number has a unit on a side.
pub(crate) fn has_units_of(units: &[Unit], number: u8) -> bool
    ensures { result ≡ list_any (λ u. u.agent == number) units.now }
{
    units.iter().any(|unit| unit.agent.get() == number)
}

/// Returns the price of the first unit of a side, 0 if there is none.
pub(crate) fn first_price(units: &[Unit]) -> u16
    ensures { result ≡ slice_index_or (map (λ u. u.price) units.now) 0 0 }
{
    match units.first() {
        Some(unit) => unit.price,
        None => 0,
    }
}
