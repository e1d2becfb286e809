ghost use Rattle.std.specs.Prelude.{◌≡◌, ◌&&◌, not, nat_le};
ghost use Rattle.std.specs.List.{list_any};
ghost use Rattle.tac_base.specs.Bids.{buys_of};
ghost use Rattle.auction_rules.specs.Refusals as refusals;

use tac_base::Point;

/// Returns whether the price is at least that of a selling point.
fn meets_own(points: &[Point], price: u16) -> bool
    ensures { result ≡ list_any (λ sell. not (buys_of sell.units) && nat_le sell.price price) points.now }
{
    points
        .iter()
        .any(|sell| !sell.buys() && sell.price <= price)
}

/// Returns whether a buying point's price is at least that of a selling one.
pub(crate) fn crosses_itself(points: &[Point]) -> bool
    ensures { result ≡ refusals.crosses_itself points.now }
{
    points
        .iter()
        .any(|buy| buy.buys() && meets_own(points, buy.price))
}
