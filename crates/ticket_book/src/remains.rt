ghost use Rattle.std.specs.Prelude.{◌≡◌, ◌+◌, ◌<◌, ◌≤◌, ◌++◌, length, if◌then◌else◌};
ghost use Rattle.ticket_book.specs.{Point, size_of, both};
ghost use Rattle.auction_rules.specs.Units as units;
ghost use Rattle.auction_rules.specs.BidPoints as spec;
ghost use Rattle.ticket_book.specs.Remains as remains;

use crate::sides::Sides;
use arrayvec::ArrayVec;
use auction_rules::{BidUnit, Placed, push_point};
use tac_base::limits::{BID_POINTS, BID_UNITS};
use tac_base::{Left, Point};

/// Returns how many units of the bid's point stand, if `from` units of the bid come before it.
fn units_left(standing: &Sides, bid: &Placed, from: u8, point: &Point) -> u8
    requires { from + size_of point.now ≤ BID_UNITS }
    ensures value { result ≡ units.common_units (units.point_units bid.now.agent bid.now.position from point.now) (both standing.now) }
    ensures few { result ≤ size_of point.now }
{
    let mut own: ArrayVec<BidUnit, 16> = ArrayVec::new();
    push_point(&mut own, bid, from, point);
    own.iter().filter(|unit| standing.contains(unit)).count() as u8
}

/// Returns a point like the given one, with this many units.
fn with_units(point: &Point, count: u8) -> Point
    requires { count ≤ BID_UNITS }
    ensures { result ≡ remains.with_units point.now count }
{
    let units = count as i8;
    Point {
        units: if point.buys() { units } else { -units },
        price: point.price,
    }
}

/// Appends what is left of a point, if any unit is.
fn push_left(left: &mut ArrayVec<Point, 16>, point: &Point, count: u8)
    requires room { length left.old.items < BID_POINTS }
    requires few { count ≤ BID_UNITS }
    ensures points { left.new.items ≡ left.old.items ++ remains.point_left point.now count }
    ensures len { length left.new.items ≤ length left.old.items + 1 }
{
    if count > 0 {
        left.push(with_units(point, count));
    }
}

/// Returns what is left of a bid if these units stand.
pub(crate) fn left_of(bid: &Placed, standing: &Sides) -> Left
    ensures { result ≡ spec.left_points (both standing.now) bid.now.agent bid.now.position 0 bid.now.points }
{
    let mut left = ArrayVec::new();
    let mut from = 0;
    for point in bid.points.as_slice() {
        push_left(&mut left, point, units_left(standing, bid, from, point));
        from += point.size();
    }
    Left::new(&left)
}
