ghost use Rattle.std.specs.Prelude.{◌≡◌, ◌<◌, ◌≤◌, ◌*◌, ◌+◌, slice_index};
ghost use Rattle.tac_base.specs.declared.limits.TheConstants.{DUAL_PRICE};
ghost use Rattle.packages.specs.{cost_of, IsPackage};
ghost use Rattle.packages.specs.Costs.{rooms_price, ticket_price};

use crate::prices::Prices;
use crate::travel_packages::Package;
use tac_base::Good;

/// Returns the price of a good.
fn price_at(prices: &Prices, good: Good) -> u32
    ensures value { result ≡ slice_index prices.now good }
    ensures few { result ≤ DUAL_PRICE }
{
    u32::from(prices.dollars[usize::from(good.get())])
}

/// Returns what the rooms of a stay cost.
#[tactic(auto, using(crate::proofs::Trips::rooms_none, crate::proofs::Trips::rooms_more))]
fn rooms_cost(prices: &Prices, hotel: u8, arrive: u8, depart: u8) -> u32
    requires hotel { hotel < 2 }
    requires first { 1 ≤ arrive }
    requires later { arrive < depart }
    requires last { depart ≤ 5 }
    ensures value { result ≡ rooms_price prices.now hotel arrive depart }
    ensures few { result ≤ 4 * DUAL_PRICE }
{
    let mut total = 0;
    for night in arrive..depart {
        total += price_at(prices, Good::hotel_night(hotel, night));
    }
    total
}

/// Returns what the ticket of a type costs; without a night it costs nothing.
fn ticket_cost(prices: &Prices, kind: u8, night: u8) -> u32
    requires kind { kind < 3 }
    requires night { night < 5 }
    ensures value { result ≡ ticket_price prices.now kind night }
    ensures few { result ≤ DUAL_PRICE }
{
    if night == 0 {
        0
    } else {
        price_at(prices, Good::ticket_night(kind, night))
    }
}

/// Returns what the goods that a package, one of the 393, uses cost at the prices, in dollars.
pub fn cost(prices: &Prices, package: &Package) -> u32
    requires { IsPackage «package».now }
    ensures value { result ≡ cost_of prices.now «package».now }
    ensures few { result ≤ 9 * DUAL_PRICE }
{
    match package {
        Package::None => 0,
        Package::Trip {
            hotel,
            arrive,
            depart,
            nights,
        } => {
            price_at(prices, Good::inbound_flight(*arrive))
                + price_at(prices, Good::outbound_flight(*depart))
                + rooms_cost(prices, *hotel, *arrive, *depart)
                + ticket_cost(prices, 0, nights[0])
                + ticket_cost(prices, 1, nights[1])
                + ticket_cost(prices, 2, nights[2])
        }
    }
}
