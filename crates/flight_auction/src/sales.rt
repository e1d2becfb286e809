ghost use Rattle.std.specs.Prelude.{◌≡◌, ◌+◌, ◌<◌, ◌≤◌, ◌++◌, [], ◌∷◌, length};
ghost use Rattle.std.specs.List.{list_any};
ghost use Rattle.auction_rules.specs.BookStanding as rule;
ghost use Rattle.flight_auction.specs.Book as spec;

use arrayvec::ArrayVec;
use auction_rules::StandingPoint;
use tac_base::limits::{ENTRY_TRADES, STANDING_UNITS};
use tac_base::{Agent, Fills, Good, Party, Point, Trade};

/// Returns whether the point belongs to the agent with this number.
fn is_of(standing: &StandingPoint, number: u8) -> bool
    ensures { result ≡ spec.is_points_agent number standing.now }
{
    standing.agent.get() == number
}

/// Returns whether the house sells the point at the price.
fn reaches(standing: &StandingPoint, price: u16) -> bool
    ensures { result ≡ spec.reaches price standing.now }
{
    price <= standing.point.price
}

/// Returns the sale of the whole point by the house at the price.
fn sale(good: Good, price: u16, standing: &StandingPoint) -> Trade
    ensures { result ≡ rule.sale good price standing.now }
{
    Trade {
        buyer: standing.agent.party(),
        seller: Party::house(),
        good,
        units: standing.point.size(),
        price,
    }
}

/// Returns whether one of the points belongs to the agent with this number.
pub(crate) fn has_points(standing: &[StandingPoint], number: u8) -> bool
    ensures { result ≡ list_any (spec.is_points_agent number) standing.now }
{
    standing.iter().any(|one| is_of(one, number))
}

/// Removes the points of the agent with this number.
pub(crate) fn forget(standing: &mut ArrayVec<StandingPoint, STANDING_UNITS>, number: u8)
    ensures { standing.new.items ≡ spec.others_than number standing.old.items }
{
    standing.retain(|one| !is_of(one, number));
}

/// Appends the points of an agent.
pub(crate) fn place(
    standing: &mut ArrayVec<StandingPoint, STANDING_UNITS>,
    agent: Agent,
    points: &[Point],
)
    requires { length standing.old.items + length points.now ≤ STANDING_UNITS }
    ensures { standing.new.items ≡ standing.old.items ++ rule.owned_by agent points.now }
{
    for point in points {
        standing.push(StandingPoint {
            agent,
            point: *point,
        });
    }
}

/// Returns the points of the agent with this number, at most 16.
pub(crate) fn points_of(standing: &[StandingPoint], number: u8) -> ArrayVec<Point, 16>
    requires { length (spec.agents_points number standing.now) ≤ 16 }
    ensures { result.items ≡ spec.agents_points number standing.now }
{
    let mut points = ArrayVec::new();
    for one in standing {
        if is_of(one, number) {
            points.push(one.point);
        }
    }
    points
}

/// Appends the sale of the point, if its price is at least the current one.
fn push_sale(fills: &mut Fills, good: Good, price: u16, standing: &StandingPoint)
    requires { length fills.old < ENTRY_TRADES }
    ensures trades { fills.new ≡ fills.old ++ spec.sales good price (standing.now ∷ []) }
    ensures few { length fills.new ≤ length fills.old + 1 }
{
    if reaches(standing, price) {
        fills.push(sale(good, price, standing));
    }
}

/// Sells each point whose price is at least `price`, and removes it. The trades, in the order of the points, replace
/// those in `fills`.
pub(crate) fn sell(
    standing: &mut ArrayVec<StandingPoint, STANDING_UNITS>,
    good: Good,
    price: u16,
    fills: &mut Fills,
)
    ensures trades { fills.new ≡ spec.sales good price standing.old.items }
    ensures left { standing.new.items ≡ spec.unsold price standing.old.items }
{
    fills.clear();
    for one in standing.iter() {
        push_sale(fills, good, price, one);
    }
    standing.retain(|one| !reaches(one, price));
}
