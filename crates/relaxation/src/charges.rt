// What the goods of packages cost at prices that can be fractions.
ghost use Rattle.std.specs.Prelude.{◌<◌, ◌≤◌};

use crate::columns::row_of_good;
use crate::features::Features;
use crate::tableau::Row;
use tac_base::Good;

/// What each value of a package's features costs.
#[derive(Drop)]
struct ValueCharges {
    /// For trip values 0..20.
    trips: [f64; 21],
    /// For ticket types 0..2 and nights 0..4.
    tickets: [[f64; 5]; 3],
}

/// Returns what the seats and the rooms of a trip cost.
fn trip_charge(prices: &Row, hotel: u8, arrive: u8, depart: u8) -> f64
    requires hotel { hotel < 2 }
    requires first { 1 ≤ arrive }
    requires later { arrive < depart }
    requires last { depart ≤ 5 }
{
    let mut total = prices[row_of_good(Good::inbound_flight(arrive))]
        + prices[row_of_good(Good::outbound_flight(depart))];
    for night in arrive..depart {
        total += prices[row_of_good(Good::hotel_night(hotel, night))];
    }
    total
}

/// Returns the days of arrival and departure of the trip with a rank, 0..9.
fn days(rank: u8) -> (u8, u8)
    requires { rank < 10 }
    ensures first { 1 ≤ result.0 }
    ensures later { result.0 < result.1 }
    ensures last { result.1 ≤ 5 }
{
    if rank < 4 {
        (1, rank + 2)
    } else if rank < 7 {
        (2, rank - 1)
    } else if rank < 9 {
        (3, rank - 3)
    } else {
        (4, 5)
    }
}

/// Returns what the ticket of a type, 0..2, costs on each night; no night costs nothing.
fn ticket_charges(prices: &Row, kind: u8) -> [f64; 5]
    requires { kind < 3 }
{
    let mut charges = [0.0; 5];
    for night in 1..5 {
        charges[usize::from(night)] = prices[row_of_good(Good::ticket_night(kind, night))];
    }
    charges
}

/// Returns what each value of a package's features costs at the prices.
fn value_charges(prices: &Row) -> ValueCharges {
    let mut trips = [0.0; 21];
    for trip in 0..20 {
        let (arrive, depart) = days(trip % 10);
        trips[1 + usize::from(trip)] = trip_charge(prices, trip / 10, arrive, depart);
    }
    ValueCharges {
        trips,
        tickets: [
            ticket_charges(prices, 0),
            ticket_charges(prices, 1),
            ticket_charges(prices, 2),
        ],
    }
}

/// Stores what each package, 0..392, costs. The second hotel has the ticket choices of the first.
pub(crate) fn charge(charges: &mut [f64; 393], features: &Features, prices: &Row) {
    let of = value_charges(prices);
    for number in 1..197 {
        let tickets = of.tickets[0][features.night_of(number, 0)]
            + of.tickets[1][features.night_of(number, 1)]
            + of.tickets[2][features.night_of(number, 2)];
        charges[number] = of.trips[features.trip_of(number)] + tickets;
        charges[number + 196] = of.trips[features.trip_of(number + 196)] + tickets;
    }
}
