ghost use Rattle.std.specs.Prelude.{◌≡◌, ◌+◌, ◌<◌, ◌≤◌, nat_le, if◌then◌else◌, length};
ghost use Rattle.tac_base.specs.Bids.{size_of, total_size};
ghost use Rattle.auction_rules.specs.Refusals as refusals;
ghost use Rattle.hotel_book.specs.Book.{book_refusal};

use auction_rules::sells;
use tac_base::limits::{BID_PRICE, BID_UNITS};
use tac_base::{Point, Points, Reply};

/// Returns how many units a point offers at a price or above.
fn offered_by(point: &Point, at: u16) -> u8
    ensures { result ≡ (if nat_le at point.now.price then size_of point.now else 0) }
{
    if at <= point.price { point.size() } else { 0 }
}

/// Returns how many units the points offer at a price or above.
#[tactic(auto, using(crate::proofs::Offers::offered_one))]
fn offered(points: &[Point], at: u16) -> u8
    requires { total_size points.now ≤ BID_UNITS }
    ensures value { result ≡ refusals.offered points.now at }
    ensures few { result ≤ BID_UNITS }
{
    let mut total = 0;
    for point in points {
        total += offered_by(point, at);
    }
    total
}

/// Returns the refusal of the bid of an agent that would win `won` units, if there is one.
pub(crate) fn refusal(won: u8, published: u16, closed: bool, points: &Points) -> Option<Reply>
    requires { published ≤ BID_PRICE }
    ensures { result ≡ book_refusal won published closed points.now }
{
    if closed {
        return Some(Reply::Closed);
    }
    let points = points.as_slice();
    if sells(points) {
        return Some(Reply::Sell);
    }
    let need = won.max(1);
    let at = published + 1;
    let offered = offered(points, at);
    if offered < need {
        Some(Reply::BelowQuote { need, at, offered })
    } else {
        None
    }
}

/// Returns the published price after an admitted bid: the ask if quotes are live, or else `published`.
pub(crate) fn after_bid(live: bool, ask: u16, published: u16) -> u16
    ensures { result ≡ (if live then ask else published) }
{
    if live { ask } else { published }
}
