// Desks at one floor.
ghost use Rattle.std.specs.Prelude.{◌≡◌, ◌<◌, ◌++◌, ◌∷◌, [], OnOk};
ghost use Rattle.floor.specs.Desks.{desk_ids, desk_caller};
ghost use Rattle.floor.specs.Floors.{floor_ids};

use crate::desks::begin_three;
use auction_core::{Auction, Closed};
use bid_strings::read_points;
use floor::{CashOutcome, Desk, Floor, Outcome};
use game_text::Game;
use std::alloc::{AllocError, Global};
use std::sync::Wait;
use std::test::Fail;
use std::thread::{Threads, join};
use std::time::Clock;
use tac_base::{Good, Memory, Party, Points, Reply};

/// Whether a bid is taken at the position, with so many units bought and none sold.
fn is_taken(outcome: &Outcome, at: u32, units: u8) -> bool {
    matches!(outcome, Outcome::At { position, reply: Reply::Taken { bought, sold: 0 } } if *position == at && *bought == units)
}

// What one desk has done, another sees: a desk's quote counts the two calls before it.
#[test]
fn tickets_are_traded_and_posted(rt: HostRuntime) -> Result<(), Fail> {
    let (sells, buys) = (read_points(b"((-1 60))")?, read_points(b"((1 70))")?);
    let museum = Good::new(24)?;
    let (floor, mut first, mut second, mut third) = begin_three(rt.alloc(), &Game::default())?;
    assert!(rt; is_taken(&second.bid(&rt, &floor, museum, &sells), 0, 0));
    assert!(rt; is_taken(&first.bid(&rt, &floor, museum, &buys), 1, 1));
    let paid = CashOutcome::At {
        position: 1,
        dollars: -60,
    };
    assert!(rt; first.cash(&rt, &floor) == paid);
    let board = third.quote(&floor, museum);
    assert!(rt; board.count == 2 && board.bid == 0 && board.ask == 0 && !board.closed);
    Ok(())
}

/// How many of so many calls are answered with a position.
fn call_often<R: Wait + Clock>(
    rt: &R,
    floor: &Floor,
    desk: &mut Desk,
    good: Good,
    calls: u32,
) -> u32
    requires own { desk_ids desk.old ≡ floor_ids floor.now }
    requires agent { desk_caller desk.old < 8 }
    ensures own { (desk_ids desk.new ≡ floor_ids floor.now) × (desk_caller desk.new < 8) }
{
    let mut answered = 0u32;
    for _ in 0..calls {
        let outcome = desk.own(rt, floor, good);
        answered = answered.saturating_add(u32::from(matches!(outcome, Outcome::At { .. })));
    }
    answered
}

/// The desk bids the same 500 times.
fn bid_often<R: Wait + Clock>(
    rt: &R,
    floor: &Floor,
    mut desk: Desk,
    good: Good,
    points: &Points,
) -> Desk
    requires own { desk_ids desk ≡ floor_ids floor.now }
    requires agent { desk_caller desk < 8 }
    ensures { (desk_ids result ≡ desk_ids desk) × (desk_caller result ≡ desk_caller desk) }
{
    for _ in 0..500u32 {
        desk.bid(rt, floor, good, points);
    }
    desk
}

/// Adds a desk to those that are handed back to their floor.
fn hand_back(desks: &mut Vec<Desk>, desk: Desk) -> Result<(), Memory>
    ensures { OnOk result (desks.new.items ≡ desks.old.items ++ desk ∷ []) }
{
    match desks.push(desk) {
        Ok(()) => Ok(()),
        Err(e) => Err(AllocError::from(e).into()),
    }
}

/// The game in which the agents 0 and 1 bid 500 times each, at once.
fn bid_at_once<R: Threads + Wait + Clock + Sync>(
    rt: &R,
    alloc: Global,
    good: Good,
    sells: &Points,
    buys: &Points,
) -> Result<Closed, Memory> {
    let (floor, desks) = Floor::begin(alloc, &Game::default())?;
    let mut others = desks.into_iter();
    let first = others.next().unwrap();
    let second = others.next().unwrap();
    let (first, second) = join(
        rt,
        || bid_often(rt, &floor, first, good, sells),
        || bid_often(rt, &floor, second, good, buys),
    );
    let mut all = Vec::new(alloc);
    hand_back(&mut all, first)?;
    hand_back(&mut all, second)?;
    for desk in others {
        hand_back(&mut all, desk)?;
    }
    Ok(floor.close(all))
}

/// What a party gained in the trades of an auction, in dollars.
fn gained(auction: &Auction, party: Party) -> i64 {
    let mut dollars = 0i64;
    for position in 0..auction.len() {
        for trade in auction.trades_of(position) {
            let worth = i64::from(trade.units).wrapping_mul(i64::from(trade.price));
            if trade.buyer == party {
                dollars = dollars.wrapping_sub(worth);
            }
            if trade.seller == party {
                dollars = dollars.wrapping_add(worth);
            }
        }
    }
    dollars
}

#[test]
fn two_desks_bid_at_once_and_calls_are_spent_after_1024(rt: HostRuntime) -> Result<(), Fail> {
    let (sells, buys) = (read_points(b"((-1 60))")?, read_points(b"((1 70))")?);
    let (seller, buyer) = (Party::default(), Party::new(1)?);
    let museum = Good::new(24)?;
    let closed = bid_at_once(&rt, rt.alloc(), museum, &sells, &buys)?;
    let Some(auction) = closed.auctions.get(24) else {
        return Err("there are 28 auctions".into());
    };
    assert!(rt; auction.len() == 1000 && gained(auction, seller) >= 60);
    assert!(rt; closed.cash.total(seller) == gained(auction, seller));
    assert!(rt; closed.cash.total(buyer) == gained(auction, buyer));
    let (floor, mut desk, _second, _third) = begin_three(rt.alloc(), &Game::default())?;
    assert!(rt; call_often(&rt, &floor, &mut desk, museum, 1024) == 1024);
    assert!(rt; matches!(desk.own(&rt, &floor, museum), Outcome::Spent));
    Ok(())
}
