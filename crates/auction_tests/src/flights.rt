// Flights.
ghost use Rattle.std.specs.Prelude.{◌≡◌, IfOk};
ghost use Rattle.tac_base.specs.Kinds.{kind_of};

use crate::replies::is_told;
use bid_strings::read_points;
use flight_auction::{Flight, next_price};
use std::test::Fail;
use tac_base::{Agent, Fills, Good, Kind, OutOfRange, Reply, Tick};

fn inbound_flight() -> Result<Good, OutOfRange>
    ensures { IfOk result (λ good. kind_of good ≡ Kind.Flight) }
{
    Good::new(0)
}

/// Whether the house sold two units at 150 to agent 0, and nothing else.
fn are_two_sold(fills: &Fills) -> bool {
    matches!(fills.as_slice(), [trade] if (trade.buyer.get(), trade.seller.get()) == (0, 8)
        && (trade.units, trade.price) == (2, 150))
}

#[test]
fn prices_fall_to_a_bid_and_move_within_their_bounds(rt: HostRuntime) -> Result<(), Fail> {
    let mut fills = Fills::new();
    let mut flight = Flight::new(inbound_flight()?, 250, 10);
    let reply = flight.bid(0, Agent::new(0)?, &read_points(b"((2 150))")?, &mut fills);
    assert!(rt; is_told(0, reply, b"@0 taken 0 0"));
    for tick in 1..11u8 {
        assert!(rt; fills.as_slice().is_empty());
        let reply = flight.update(u32::from(tick), Tick::new(tick)?, 0, &mut fills);
        assert!(rt; matches!(reply, Reply::Done));
    }
    assert!(rt; are_two_sold(&fills));
    assert!(rt; flight.board(11).ask == 150);
    let (first, middle, later) = (Tick::new(1)?, Tick::new(27)?, Tick::new(28)?);
    assert!(rt; next_price(300, 30, middle, 30) == 320);
    assert!(rt; next_price(300, -10, later, 0) == 299);
    assert!(rt; next_price(795, 30, middle, 30) == 800);
    assert!(rt; next_price(151, 10, first, 0) == 150);
    Ok(())
}
