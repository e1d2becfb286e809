ghost use Rattle.std.specs.Prelude.{◌≡◌, ℕ, ◌+◌, ◌<◌, ◌≤◌, ◌≢◌, ◌↔◌, List, [], ◌∷◌, ◌++◌, pos, Option, Some, None, IsOk, IfOk, IfErr, IfNone, unsigned_abs, OnOk, OnErr, length, All};
ghost use Rattle.tac_base.specs.Bids.{fault_of, left_fault, total_size, point_at, point_fault, size_of, buys_of};

use crate::limits::{BID_POINTS, BID_PRICE, BID_UNITS};
use arrayvec::ArrayVec;
use std::marker::Model;

/// A number of units, with a price per unit.
#[derive(Clone, Copy, Debug, Default, PartialEq, Eq)]
pub struct Point {
    /// A positive number of units is bought, a negative number sold.
    pub units: i8,
    /// The most that a unit may cost, or the least that it must bring, in dollars.
    pub price: u16,
}

impl Point {
    /// Returns whether the point buys; 0 units count as buying.
    pub fn buys(&self) -> bool
        ensures { result ≡ buys_of self.now.units }
    {
        self.units >= 0
    }

    /// Returns how many units the point buys or sells, at most 128.
    pub fn size(&self) -> u8
        ensures value { result ≡ size_of self.now }
        ensures bound { result ≤ 128 }
    {
        self.units.unsigned_abs()
    }
}

/// Why a list of points is not a bid. This project defines the limits.
#[derive(Clone, Copy, Debug, PartialEq, Eq)]
pub enum BidFault {
    /// The text is not a list of points, or the list is empty.
    Syntax,
    /// There is a 17th point.
    TooManyPoints,
    /// The units of all points, bought and sold ones alike, exceed 16.
    TooManyUnits,
    /// A price is outside 1..10000 dollars.
    Price,
    /// A point has no units.
    ZeroUnits,
}

/// Returns the next point's fault, after `count` points with `used` units. This project defines the order of tests.
fn fault_at(count: usize, used: u8, size: u64, price: u64) -> Option<BidFault>
    requires { used ≤ BID_UNITS }
    ensures { result ≡ point_fault count used (point_at (pos size) price) }
{
    if count == BID_POINTS as usize {
        Some(BidFault::TooManyPoints)
    } else if size == 0 {
        Some(BidFault::ZeroUnits)
    } else if price < 1 {
        Some(BidFault::Price)
    } else if u64::from(BID_PRICE) < price {
        Some(BidFault::Price)
    } else if u64::from(BID_UNITS) < size || u64::from(BID_UNITS) < u64::from(used) + size {
        Some(BidFault::TooManyUnits)
    } else {
        None
    }
}

/// The capacity of a list of points.
const POINTS: usize = BID_POINTS as usize;

/// The points of a bid that is being built: at most 16 of them, with at most 16 units in all.
#[derive(Debug, Drop)]
pub struct BidDraft {
    list: ArrayVec<Point, POINTS>,
    used: u8,
}

impl Model for BidDraft {
    ghost use Rattle.std.specs.Prelude.{◌≡◌, List, None};
    ghost use Rattle.tac_base.specs.declared.bids.Point.{Point};
    ghost use Rattle.tac_base.specs.Bids.{left_fault, total_size};

    ghost Value = { List Point };

    ghost view = { λ d. d.list.items };

    ghost invariant = { λ d. (left_fault d.list.items ≡ None) × (d.used ≡ total_size d.list.items) };
}

impl BidDraft {
    /// Returns a draft without points.
    pub fn new() -> Self
        ensures { result ≡ [] }
    {
        BidDraft {
            list: ArrayVec::new(),
            used: 0,
        }
    }

    /// Appends a point with any units and price, or returns the fault that it causes and changes nothing.
    #[tactic(auto, using(crate::proofs::Faults::list_units))]
    pub fn push(&mut self, units: i64, price: u64) -> Result<(), BidFault>
        ensures variant { IsOk result ↔ (left_fault (self.old ++ point_at units price ∷ []) ≡ None) }
        ensures fault { IfErr result (λ fault. left_fault (self.old ++ point_at units price ∷ []) ≡ Some fault) }
        ensures ok { OnOk result (self.new ≡ self.old ++ point_at units price ∷ []) }
        ensures err { OnErr result (self.new ≡ self.old) }
    {
        if let Some(fault) = self.fault_with(units, price) {
            return Err(fault);
        }
        self.list.push(Point {
            units: units as i8,
            price: price as u16,
        });
        self.used += units.unsigned_abs() as u8;
        Ok(())
    }

    /// Appends a point as `push` does.
    fn push_point(&mut self, point: &Point) -> Result<(), BidFault>
        ensures variant { IsOk result ↔ (left_fault (self.old ++ point.now ∷ []) ≡ None) }
        ensures fault { IfErr result (λ fault. left_fault (self.old ++ point.now ∷ []) ≡ Some fault) }
        ensures ok { OnOk result (self.new ≡ self.old ++ point.now ∷ []) }
    {
        self.push(i64::from(point.units), u64::from(point.price))
    }

    /// Returns the fault that one more point would cause, if any.
    #[tactic(auto, using(crate::proofs::Faults::list_units))]
    fn fault_with(&self, units: i64, price: u64) -> Option<BidFault>
        ensures value { result ≡ left_fault (self.now ++ point_at units price ∷ []) }
        ensures limits { IfNone result ((length self.now < BID_POINTS) × (unsigned_abs units ≤ BID_UNITS) × (price ≤ BID_PRICE)) }
    {
        fault_at(self.list.len(), self.used, units.unsigned_abs(), price)
    }

    /// Returns the bid of these points, or `Syntax` if there are none.
    pub fn finish(self) -> Result<Points, BidFault>
        ensures variant { IsOk result ↔ (fault_of self ≡ None) }
        ensures value { IfOk result (λ points. points ≡ self) }
        ensures fault { IfErr result (λ fault. fault_of self ≡ Some fault) }
    {
        if self.list.is_empty() {
            return Err(BidFault::Syntax);
        }
        Ok(Points { list: self.list })
    }
}

/// Copies a list of at most 16 points.
pub(crate) fn copied(list: &[Point]) -> ArrayVec<Point, POINTS>
    requires { length list.now ≤ BID_POINTS }
    ensures { result.items ≡ list.now }
{
    let mut kept = ArrayVec::new();
    for point in list {
        kept.push(*point);
    }
    kept
}

/// The points of a bid: 1 to 16 of them, each with units and a price of 1..10000 dollars, and at most 16 units in all.
#[derive(Debug, Drop)]
pub struct Points {
    list: ArrayVec<Point, POINTS>,
}

impl Model for Points {
    ghost use Rattle.std.specs.Prelude.{◌≡◌, List, None};
    ghost use Rattle.tac_base.specs.declared.bids.Point.{Point};
    ghost use Rattle.tac_base.specs.Bids.{fault_of};

    ghost Value = { List Point };

    ghost view = { λ p. p.list.items };

    ghost invariant = { λ p. fault_of p.list.items ≡ None };
}

impl Points {
    /// Returns the bid of a list, or the first fault from the left; an empty list has the fault `Syntax`.
    #[tactic(auto, using(crate::proofs::Faults::fault_found))]
    pub fn new(list: &[Point]) -> Result<Self, BidFault>
        ensures variant { IsOk result ↔ (fault_of list.now ≡ None) }
        ensures value { IfOk result (λ points. points ≡ list.now) }
        ensures fault { IfErr result (λ fault. fault_of list.now ≡ Some fault) }
    {
        let mut draft = BidDraft::new();
        for point in list {
            draft.push_point(point)?;
        }
        draft.finish()
    }

    /// Returns the points in the order of the bid.
    #[tactic(auto, using(crate::proofs::Faults::bid_points, crate::proofs::Faults::bid_units, crate::proofs::Faults::bid_prices, crate::proofs::Faults::bid_sizes))]
    pub fn as_slice(&self) -> &[Point]
        ensures value { result.now ≡ self.now }
        ensures bid { fault_of self.now ≡ None }
        ensures few { length self.now ≤ BID_POINTS }
        ensures small { total_size self.now ≤ BID_UNITS }
        ensures priced { All (λ point. point.price ≤ BID_PRICE) self.now }
        ensures no_empty { All (λ point. size_of point ≢ 0) self.now }
    {
        self.list.as_slice()
    }

    /// Copies the bid.
    #[tactic(auto, using(crate::proofs::Faults::bid_points, crate::proofs::Faults::bid_prices))]
    pub fn copy(&self) -> Self
        ensures value { result ≡ self.now }
        ensures bid { fault_of self.now ≡ None }
        ensures priced { All (λ point. point.price ≤ BID_PRICE) result }
    {
        Points {
            list: copied(self.list.as_slice()),
        }
    }
}

/// The standing points of an agent: none, or points within the limits of a bid.
#[derive(Debug, Drop)]
pub struct Left {
    list: ArrayVec<Point, POINTS>,
}

impl Model for Left {
    ghost use Rattle.std.specs.Prelude.{◌≡◌, List, None};
    ghost use Rattle.tac_base.specs.declared.bids.Point.{Point};
    ghost use Rattle.tac_base.specs.Bids.{left_fault};

    ghost Value = { List Point };

    ghost view = { λ p. p.list.items };

    ghost invariant = { λ p. left_fault p.list.items ≡ None };
}

impl Left {
    /// Returns no points.
    pub fn none() -> Self
        ensures { result ≡ [] }
    {
        Left {
            list: ArrayVec::new(),
        }
    }

    /// Returns the points of a list that is within the limits.
    #[tactic(auto, using(crate::proofs::Faults::list_points))]
    pub fn new(list: &[Point]) -> Self
        requires { left_fault list.now ≡ None }
        ensures { result ≡ list.now }
    {
        Left { list: copied(list) }
    }

    /// Returns the points in the order of the bid.
    #[tactic(auto, using(crate::proofs::Faults::list_points))]
    pub fn as_slice(&self) -> &[Point]
        ensures value { result.now ≡ self.now }
        ensures within { left_fault self.now ≡ None }
        ensures few { length self.now ≤ BID_POINTS }
    {
        self.list.as_slice()
    }

    /// Copies the points.
    #[tactic(auto, using(crate::proofs::Faults::list_points))]
    pub fn copy(&self) -> Self
        ensures value { result ≡ self.now }
        ensures within { left_fault self.now ≡ None }
    {
        Left {
            list: copied(self.list.as_slice()),
        }
    }
}
