ghost use Rattle.std.specs.Prelude.{◌≡◌, ◌+◌, ◌<◌, ◌≤◌, ◌++◌, length, All};
ghost use Rattle.auction_rules.specs.Prelude.{size_of, BID_PRICE, BID_UNITS};
ghost use Rattle.auction_rules.specs.Units as spec;
ghost use Rattle.auction_rules.specs.Shown.{shown_unit};
ghost use Rattle.auction_rules.specs.Refusals as refusals;

use arrayvec::ArrayVec;
use tac_base::{Agent, Point, Points, Unit};

/// A bid, and the position in the history at which the agent made it.
#[derive(Debug, Drop)]
pub struct Placed {
    pub agent: Agent,
    pub position: u32,
    pub points: Points,
}

/// A standing point, and its agent.
#[derive(Clone, Copy, Debug, Default, PartialEq, Eq)]
pub struct StandingPoint {
    pub agent: Agent,
    pub point: Point,
}

/// One unit of a bid: its agent, its side and price in dollars, the position of its bid, and its
/// index in the bid, counted from 0.
#[derive(Clone, Copy, Debug, Default, PartialEq, Eq)]
pub struct BidUnit {
    pub agent: Agent,
    pub buys: bool,
    pub price: u16,
    pub position: u32,
    pub index: u8,
}

impl BidUnit {
    /// Returns the unit without its side, as the books of hotels and tickets show it.
    pub fn shown(&self) -> Unit
        ensures { result ≡ shown_unit self.now }
    {
        Unit {
            agent: self.agent,
            price: self.price,
            position: self.position,
            index: self.index,
        }
    }
}

/// Returns whether a point sells.
pub fn sells(points: &[Point]) -> bool
    ensures { result ≡ refusals.sells points.now }
{
    points.iter().any(|point| !point.buys())
}

/// Appends this many units like the first, with consecutive indices from that of the first.
#[tactic(auto, using(crate::proofs::Blocks::block_more))]
fn push_block<const N: usize>(out: &mut ArrayVec<BidUnit, N>, first: &BidUnit, count: u8)
    requires room { length out.old.items + count ≤ N }
    requires numbered { first.now.index + count ≤ BID_UNITS }
    ensures units { out.new.items ≡ out.old.items ++ spec.block first.now count }
    ensures len { length out.new.items ≡ length out.old.items + count }
{
    for i in 0..count {
        out.push(BidUnit {
            index: first.index + i,
            ..*first
        });
    }
}

/// Appends the units of a bid's point, with indices from `from` upwards, and returns their number.
pub fn push_point<const N: usize>(
    out: &mut ArrayVec<BidUnit, N>,
    bid: &Placed,
    from: u8,
    point: &Point,
) -> u8
    requires room { length out.old.items + size_of point.now ≤ N }
    requires numbered { from + size_of point.now ≤ BID_UNITS }
    ensures units { out.new.items ≡ out.old.items ++ spec.point_units bid.now.agent bid.now.position from point.now }
    ensures len { length out.new.items ≡ length out.old.items + result }
    ensures size { result ≡ size_of point.now }
{
    let size = point.size();
    let first = BidUnit {
        agent: bid.agent,
        buys: point.buys(),
        price: point.price,
        position: bid.position,
        index: from,
    };
    push_block(out, &first, size);
    size
}

/// Appends the units of a bid: at most 16, each at a price of at most 10000 dollars.
pub fn push_units<const N: usize>(out: &mut ArrayVec<BidUnit, N>, bid: &Placed)
    requires { length out.old.items + BID_UNITS ≤ N }
    ensures units { out.new.items ≡ out.old.items ++ spec.units_of bid.now }
    ensures len { length out.new.items ≤ length out.old.items + BID_UNITS }
    ensures priced { All (λ u. u.price ≤ BID_PRICE) (spec.units_of bid.now) }
{
    let mut from = 0;
    for point in bid.points.as_slice() {
        from += push_point(out, bid, from, point);
    }
}
