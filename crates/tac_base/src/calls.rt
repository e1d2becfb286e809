ghost use Rattle.std.specs.Prelude.{◌≡◌, ℕ, ◌+◌, ◌<◌, ◌≤◌, ◌↔◌, List, [], ◌∷◌, ◌++◌, Option, Some, None, length};
ghost use Rattle.std.specs.Slice.Iter.{iter_rest};
ghost use Rattle.tac_base.specs.Ranges.{HasCallNumbers, HasSmallNumbers};

use crate::limits::ENTRY_TRADES;
use crate::{Caller, Good, Left, Party, Points, Tick};
use arrayvec::ArrayVec;
use std::marker::Model;
use std::slice;

/// A trade of units of one good, all at the same price.
#[derive(Clone, Copy, Debug, Default, PartialEq, Eq)]
pub struct Trade {
    /// Who pays.
    pub buyer: Party,
    /// Who is paid.
    pub seller: Party,
    /// The good that is traded.
    pub good: Good,
    /// The number of units.
    pub units: u8,
    /// The price of each unit, in dollars.
    pub price: u16,
}

/// The capacity of a list of trades.
const TRADES: usize = ENTRY_TRADES as usize;

/// The trades of one entry, in the order in which they were made: at most 128.
#[derive(Debug, Drop)]
pub struct Fills {
    list: ArrayVec<Trade, TRADES>,
}

impl Model for Fills {
    ghost use Rattle.std.specs.Prelude.{List};
    ghost use Rattle.tac_base.specs.declared.calls.Trade.{Trade};

    ghost Value = { List Trade };

    ghost view = { λ p. p.list.items };
}

impl Fills {
    /// Returns an empty list.
    pub fn new() -> Self
        ensures { result ≡ [] }
    {
        Fills {
            list: ArrayVec::new(),
        }
    }

    /// Removes all trades.
    pub fn clear(&mut self)
        ensures { self.new ≡ [] }
    {
        self.list.clear();
    }

    /// Appends a trade to fewer than 128 others.
    pub fn push(&mut self, trade: Trade)
        requires { length self.old < ENTRY_TRADES }
        ensures { self.new ≡ self.old ++ trade ∷ [] }
    {
        self.list.push(trade);
    }

    /// Returns the number of trades, at most 128.
    pub fn len(&self) -> usize
        ensures value { result ≡ length self.now }
        ensures few { result ≤ ENTRY_TRADES }
    {
        self.list.len()
    }

    /// Iterates over the trades in order.
    pub fn iter(&self) -> slice::Iter<'_, Trade>
        ensures { iter_rest result ≡ self.now }
    {
        self.list.iter()
    }

    /// Returns the trades in order.
    pub fn as_slice(&self) -> &[Trade]
        ensures value { result.now ≡ self.now }
        ensures few { length self.now ≤ ENTRY_TRADES }
    {
        self.list.as_slice()
    }
}

/// What an auction shows to everybody.
#[derive(Clone, Copy, Debug, PartialEq, Eq)]
pub struct Board {
    /// The number of entries in its history.
    pub count: u32,
    /// The highest standing bid in a ticket auction, in dollars; 0 if there is none, and for every other good.
    pub bid: u16,
    /// A flight's price, a hotel's published price, or the lowest standing ask in a ticket auction, in dollars; 0 for none.
    pub ask: u16,
    /// Whether the auction is closed.
    pub closed: bool,
}

/// The net amounts that the trades of one entry give the parties.
#[derive(Clone, Copy, Debug, PartialEq, Eq)]
pub struct Nets {
    /// What each party gains, in dollars, negative if it pays: the agents 0..7, then the house.
    pub dollars: [i32; 9],
}

/// A call that a caller can make in an auction.
#[derive(Debug, Drop)]
pub enum Call {
    /// An agent bids. The bid replaces its whole earlier bid.
    Bid(Points),
    /// An agent withdraws its bid.
    Withdraw,
    /// An agent reads its own state.
    Own,
    /// The clock updates a flight's price at a tick, 1..53, with a draw.
    Update { tick: Tick, draw: u32 },
    /// The clock publishes a hotel's ask.
    Publish,
    /// The clock closes the auction.
    Close,
}

impl Call {
    /// Copies the call.
    pub fn copy(&self) -> Self
        ensures value { result ≡ self.now }
        ensures range { HasCallNumbers self.now }
    {
        match self {
            Call::Bid(points) => Call::Bid(points.copy()),
            Call::Withdraw => Call::Withdraw,
            Call::Own => Call::Own,
            Call::Update { tick, draw } => {
                let _tick = tick.get();
                Call::Update {
                    tick: *tick,
                    draw: *draw,
                }
            }
            Call::Publish => Call::Publish,
            Call::Close => Call::Close,
        }
    }
}

/// The reply to a call: the first four variants are for admitted calls, the others are refusals.
/// An auction tests for the refusals in this order, which this project defines.
#[derive(Debug, Drop)]
pub enum Reply {
    /// The bid was admitted, and the caller bought and sold this many units with it at once.
    Taken { bought: u8, sold: u8 },
    /// The agent's holding of the good, its endowment included, and its standing points.
    Own { holding: i32, left: Left },
    /// A hotel closed: this many rooms were sold, each at this price in dollars.
    Sold { units: u8, price: u16 },
    /// Any other call was admitted.
    Done,
    /// The auction is closed.
    Closed,
    /// The caller may not make the call, or auctions of this kind do not have it.
    WrongCall,
    /// The agent has no standing unit to withdraw.
    NoBid,
    /// The bid sells, and agents only buy this good.
    Sell,
    /// The bid buys at a price at or above one at which it sells.
    SelfCross,
    /// The hotel bid offers too few units at prices of `at` dollars or more.
    BelowQuote { need: u8, at: u16, offered: u8 },
}

impl Reply {
    /// Copies the reply.
    pub fn copy(&self) -> Self
        ensures value { result ≡ self.now }
        ensures range { HasSmallNumbers self.now }
    {
        match self {
            Reply::Taken { bought, sold } => Reply::Taken {
                bought: *bought,
                sold: *sold,
            },
            Reply::Own { holding, left } => Reply::Own {
                holding: *holding,
                left: left.copy(),
            },
            Reply::Sold { units, price } => Reply::Sold {
                units: *units,
                price: *price,
            },
            Reply::Done => Reply::Done,
            Reply::Closed => Reply::Closed,
            Reply::WrongCall => Reply::WrongCall,
            Reply::NoBid => Reply::NoBid,
            Reply::Sell => Reply::Sell,
            Reply::SelfCross => Reply::SelfCross,
            Reply::BelowQuote { need, at, offered } => Reply::BelowQuote {
                need: *need,
                at: *at,
                offered: *offered,
            },
        }
    }
}

/// One call of a history with its reply.
#[derive(Debug, Drop)]
pub struct Entry {
    /// Who called.
    pub caller: Caller,
    /// The call that was made.
    pub call: Call,
    /// The reply to it.
    pub reply: Reply,
    /// The index of its first trade in the list of all trades of the auction.
    pub first_trade: u32,
    /// The number of its trades.
    pub trades: u8,
}
