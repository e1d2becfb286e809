// Equality of bids, calls and replies, as contracts define it.
ghost use Rattle.std.specs.Prelude.{◌≡◌, ◌↔◌, IsTrue};

use crate::{Call, Left, Points, Reply};

/// Returns whether two bids have the same points in the same order.
pub fn same_points(a: &Points, b: &Points) -> bool
    ensures { IsTrue result ↔ (a.now ≡ b.now) }
{
    a.as_slice() == b.as_slice()
}

/// Returns whether two lists have the same points in the same order.
pub fn same_left(a: &Left, b: &Left) -> bool
    ensures { IsTrue result ↔ (a.now ≡ b.now) }
{
    a.as_slice() == b.as_slice()
}

/// Returns whether two calls are equal.
pub fn same_call(a: &Call, b: &Call) -> bool
    ensures { IsTrue result ↔ (a.now ≡ b.now) }
{
    match a {
        Call::Bid(points) => matches!(b, Call::Bid(others) if same_points(points, others)),
        Call::Withdraw => matches!(b, Call::Withdraw),
        Call::Own => matches!(b, Call::Own),
        Call::Update { tick, draw } => {
            matches!(b, Call::Update { tick: at, draw: by } if tick == at && draw == by)
        }
        Call::Publish => matches!(b, Call::Publish),
        Call::Close => matches!(b, Call::Close),
    }
}

/// Returns whether two replies are equal.
pub fn same_reply(a: &Reply, b: &Reply) -> bool
    ensures { IsTrue result ↔ (a.now ≡ b.now) }
{
    match a {
        Reply::Taken { bought, sold } => {
            matches!(b, Reply::Taken { bought: other, sold: less } if bought == other && sold == less)
        }
        Reply::Own { holding, left } => {
            matches!(b, Reply::Own { holding: other, left: points } if holding == other && same_left(left, points))
        }
        Reply::Sold { units, price } => {
            matches!(b, Reply::Sold { units: other, price: at } if units == other && price == at)
        }
        Reply::Done => matches!(b, Reply::Done),
        Reply::Closed => matches!(b, Reply::Closed),
        Reply::WrongCall => matches!(b, Reply::WrongCall),
        Reply::NoBid => matches!(b, Reply::NoBid),
        Reply::Sell => matches!(b, Reply::Sell),
        Reply::SelfCross => matches!(b, Reply::SelfCross),
        Reply::BelowQuote { need, at, offered } => {
            matches!(b, Reply::BelowQuote { need: other, at: price, offered: units } if need == other && at == price && offered == units)
        }
    }
}
