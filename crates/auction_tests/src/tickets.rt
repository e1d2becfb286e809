// Ticket auctions, and the history of one.
ghost use Rattle.std.specs.Prelude.{◌≡◌, IfOk};
ghost use Rattle.tac_base.specs.Kinds.{kind_of};

use crate::replies::is_told;
use auction_core::{Auction, Struck};
use bid_strings::read_points;
use game_text::Game;
use std::process::Abort;
use std::test::Fail;
use tac_base::{
    Agent, BidFault, Call, Caller, Fills, Good, Kind, OutOfRange, Party, Point, Points, Reply,
};
use ticket_book::Tickets;
use turn_lock::Kept;

/// An agent with the points of its bid or `withdraw`, and the line of the reply.
type Step = (u8, &'static [u8], &'static [u8]);

/// Calls; the trades of the last one, each as buyer, seller and price of a unit; the best standing prices; and what stands of agent 0's bid.
type Row = (
    &'static [Step],
    &'static [(u8, u8, u16)],
    (u16, u16),
    &'static [Point],
);

const ROWS: &[Row] = &[
    // A trade is at the price of the unit that stood.
    (
        &[
            (0, b"((-1 60))", b"@0 taken 0 0"),
            (1, b"((2 70))", b"@1 taken 1 0"),
        ],
        &[(1, 0, 60)],
        (70, 0),
        &[],
    ),
    // A refused bid leaves nothing to withdraw.
    (
        &[
            (0, b"((1 80) (-1 70))", b"@0 no selfcross"),
            (0, b"withdraw", b"@1 no nobid"),
        ],
        &[],
        (0, 0),
        &[],
    ),
    // An agent does not meet its own old unit.
    (
        &[
            (0, b"((-1 60))", b"@0 taken 0 0"),
            (0, b"((1 70))", b"@1 taken 0 0"),
        ],
        &[],
        (70, 0),
        &[Point {
            units: 1,
            price: 70,
        }],
    ),
];

fn museum_night() -> Result<Good, OutOfRange>
    ensures { IfOk result (λ good. kind_of good ≡ Kind.Ticket) }
{
    Good::new(24)
}

/// The reply to a call at a position.
fn reply_to(tickets: &mut Tickets, at: u32, step: &Step, fills: &mut Fills) -> Result<Reply, Fail> {
    let (agent, call, _) = step;
    let agent = Agent::new(*agent)?;
    if *call == b"withdraw".as_slice() {
        return Ok(tickets.withdraw(at, agent));
    }
    let points = read_points(call)?;
    Ok(tickets.bid(at, agent, &points, fills))
}

/// Whether the trades of units are these.
fn are_traded(fills: &Fills, trades: &[(u8, u8, u16)]) -> bool {
    fills.as_slice().len() == trades.len()
        && fills.as_slice().iter().zip(trades).all(|(trade, wanted)| trade.units == 1
            && (trade.buyer.get(), trade.seller.get(), trade.price) == *wanted)
}

/// Whether a new auction goes as the row says.
fn is_played(mut tickets: Tickets, row: &Row) -> Result<bool, Fail> {
    let (steps, trades, quote, left) = row;
    let mut fills = Fills::new();
    let mut at = 0u32;
    for step in *steps {
        let reply = reply_to(&mut tickets, at, step, &mut fills)?;
        if !is_told(at, reply, step.2) {
            return Ok(false);
        }
        at = at.saturating_add(1);
    }
    let board = tickets.board(at);
    Ok(
        are_traded(&fills, trades)
            && (board.bid, board.ask) == *quote
            && !board.closed
            && tickets.own(Agent::new(0)?).as_slice() == *left,
    )
}

fn points(units: i8, price: u16) -> Result<Points, BidFault> {
    Points::new(&[Point { units, price }])
}

/// A caller's bid, in a short history.
#[tactic(auto, using(auction_core::proofs::Counting::room_below))]
fn bid(rt: &impl Abort, auction: &mut Auction, caller: Caller, points: Points) -> Struck {
    let count = auction.len();
    assert!(rt; count < 64);
    auction.act(caller, &Call::Bid(points))
}

/// Whether it shows its two entries, the trade of the second, and what that left.
fn is_shown(museum: &Auction) -> bool {
    museum.len() == 2
        && matches!(museum.trades_of(1), [trade] if trade.price == 60 && trade.good.get() == museum.good().get())
        && museum.entry(1).is_some()
        && museum.entry(2).is_none()
        && museum.holding(Party::default()) == -1
        && museum.board().bid == 70
}

#[test]
fn units_are_matched_and_their_history_is_shown(rt: HostRuntime) -> Result<(), Fail> {
    for row in ROWS {
        assert!(rt; is_played(Tickets::new(museum_night()?), row)?);
    }
    // Agent 0 sells a ticket that it does not have to agent 1, who would buy one more.
    let (seller, buyer) = (Caller::new(0)?, Caller::new(1)?);
    let (sale, purchase) = (points(-1, 60)?, points(2, 70)?);
    let mut museum = Auction::begin(rt.alloc(), Good::new(24)?, &Game::default())?;
    let struck = bid(&rt, &mut museum, seller, sale);
    assert!(rt; matches!(struck.reply, Reply::Taken { bought: 0, sold: 0 }));
    let struck = bid(&rt, &mut museum, buyer, purchase);
    assert!(rt; matches!(struck.reply, Reply::Taken { bought: 1, sold: 0 }));
    assert!(rt; struck.trades == 1 && struck.nets.dollars == [60, -60, 0, 0, 0, 0, 0, 0, 0]);
    assert!(rt; is_shown(&museum));
    Ok(())
}
