// Hotel nights.
ghost use Rattle.std.specs.Prelude.{◌≡◌, IfOk};
ghost use Rattle.tac_base.specs.Kinds.{kind_of};

use crate::replies::is_told;
use bid_strings::read_points;
use hotel_book::Hotel;
use std::test::Fail;
use tac_base::{Agent, Fills, Good, Kind, OutOfRange, Reply, Unit};

/// An agent with the points of its bid, or a call of the clock; and the line of the reply.
type Step = (u8, &'static [u8], &'static [u8]);

/// A trade of a closing: who buys, how many units, and at which price.
type Sale = (u8, u8, u16);

/// Nights of 16 rooms, with the trades of their last calls.
const NIGHTS: &[(&[Step], &[Sale])] = &[
    // All pay the sixteenth price.
    (
        &[
            (
                0,
                b"((1 100) (1 101) (1 102) (1 103) (1 104) (1 105) (1 106) (1 107) (1 108) (1 109) (1 110) (1 111) (1 112) (1 113) (1 114) (1 115))",
                b"@0 taken 0 0",
            ),
            (8, b"close", b"@1 sold 16 100"),
        ],
        &[(0, 16, 100)],
    ),
    // At one price the earlier bid has the room.
    (
        &[
            (0, b"((15 200))", b"@0 taken 0 0"),
            (1, b"((1 150))", b"@1 taken 0 0"),
            (2, b"((1 150))", b"@2 taken 0 0"),
            (8, b"close", b"@3 sold 16 150"),
        ],
        &[(0, 15, 150), (1, 1, 150)],
    ),
    // Two units do not replace three that win.
    (
        &[
            (0, b"((13 100))", b"@0 taken 0 0"),
            (1, b"((3 120))", b"@1 taken 0 0"),
            (8, b"publish", b"@2 done"),
            (1, b"((2 150) (1 100))", b"@3 no belowquote 3 101 2"),
        ],
        &[],
    ),
    // Nothing is sold, and nothing comes after a closing.
    (
        &[
            (8, b"close", b"@0 sold 0 0"),
            (0, b"((1 5))", b"@1 no closed"),
            (8, b"close", b"@2 no closed"),
        ],
        &[],
    ),
];

/// A night of 64 rooms.
const LARGE_NIGHT: (&[Step], &[Sale]) = (
    &[
        (0, b"((16 100))", b"@0 taken 0 0"),
        (1, b"((16 90))", b"@1 taken 0 0"),
        (2, b"((16 80))", b"@2 taken 0 0"),
        (3, b"((16 70))", b"@3 taken 0 0"),
        (8, b"close", b"@4 sold 64 70"),
    ],
    &[(0, 16, 70), (1, 16, 70), (2, 16, 70), (3, 16, 70)],
);

fn hotel_night() -> Result<Good, OutOfRange>
    ensures { IfOk result (λ good. kind_of good ≡ Kind.Hotel) }
{
    Good::new(8)
}

/// The reply to a call at a position.
fn reply_to(hotel: &mut Hotel, at: u32, step: &Step, fills: &mut Fills) -> Result<Reply, Fail> {
    let (agent, call, _) = step;
    if *call == b"publish".as_slice() {
        return Ok(hotel.publish(at));
    }
    if *call == b"close".as_slice() {
        return Ok(hotel.close(at, fills));
    }
    let points = read_points(call)?;
    Ok(hotel.bid(at, Agent::new(*agent)?, &points, fills))
}

/// Whether the trades are these sales of the house.
fn are_sold(fills: &Fills, sales: &[Sale]) -> bool {
    fills.as_slice().len() == sales.len()
        && fills.as_slice().iter().zip(sales).all(|(trade, sale)| trade.seller.get() == 8
            && (trade.buyer.get(), trade.units, trade.price) == *sale)
}

/// Whether a new night has these replies, and at last these trades.
fn is_played(mut hotel: Hotel, night: &(&[Step], &[Sale])) -> Result<bool, Fail> {
    let (steps, sales) = night;
    let mut fills = Fills::new();
    let mut at = 0u32;
    for step in *steps {
        let reply = reply_to(&mut hotel, at, step, &mut fills)?;
        if !is_told(at, reply, step.2) {
            return Ok(false);
        }
        at = at.saturating_add(1);
    }
    Ok(are_sold(&fills, sales))
}

/// Whether agent 1's three units come first of sixteen.
fn are_ranked(units: &[Unit]) -> bool {
    units.len() == 16
        && units.iter().zip(0..3u8).all(|(unit, index)| (
            unit.agent.get(),
            unit.price,
            unit.position,
            unit.index,
        ) == (1, 120, 1, index))
}

#[test]
fn nights_are_sold_and_units_stand_in_order_until_then(rt: HostRuntime) -> Result<(), Fail> {
    for night in NIGHTS {
        assert!(rt; is_played(Hotel::new(hotel_night()?, 16, false), night)?);
    }
    assert!(rt; is_played(Hotel::new(hotel_night()?, 64, false), &LARGE_NIGHT)?);
    let (zero, one) = (Agent::new(0)?, Agent::new(1)?);
    let mut fills = Fills::new();
    let mut hotel = Hotel::new(hotel_night()?, 16, false);
    hotel.bid(0, zero, &read_points(b"((13 100))")?, &mut fills);
    hotel.bid(1, one, &read_points(b"((3 120))")?, &mut fills);
    assert!(rt; are_ranked(hotel.units()));
    assert!(rt; hotel.ask() == 100 && hotel.winning(one) == 3 && hotel.winning(zero) == 13);
    hotel.close(2, &mut fills);
    assert!(rt; hotel.units().is_empty() && hotel.ask() == 0);
    Ok(())
}
