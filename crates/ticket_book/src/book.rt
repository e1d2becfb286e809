ghost use Rattle.std.specs.Prelude.{◌≡◌, ◌≤◌, ◌||◌, [], ◌∷◌, length, List, IsTrue, ◌<◌, ◌≢◌, All, true, false, not, map, filter, IsPermutation};
ghost use Rattle.tac_base.specs.Kinds.{kind_of};
ghost use Rattle.ticket_book.specs.{clock, Setup, Entry, standing_points_of, stand, shown_unit, IsLawful, entry_of, board, is_wrong_caller, is_wrong_place, Follows, Spends, IsSideInOrder, TicketsStandFor};

use crate::refusals::crosses_itself;
use crate::remains::left_of;
use crate::sides::Sides;
use auction_rules::{Placed, Rules, bought, sold, wrong_reply};
use std::marker::Model;
use tac_base::limits::{BID_PRICE, BID_UNITS};
use tac_base::{Agent, Board, Call, Caller, Fills, Good, Kind, Left, Points, Reply, Unit};

/// The auction of a ticket, in which agents trade with each other: a continuous double auction, by the
/// game description. How units are matched follows TAC. No call allocates memory.
///
/// The book keeps the last bid of each agent, and the standing units of all agents, each side in order.
#[derive(Debug, Drop)]
pub struct Tickets {
    good: Good,
    bids: [Option<Placed>; 8],
    sides: Sides,
    closed: bool,
}

impl Model for Tickets {
    ghost use Rattle.ticket_book.specs.Book.{TicketBook};

    ghost Value = { TicketBook };

    ghost view = { λ t. record { good = t.good; bids = t.bids; sides = t.sides; closed = t.closed } };
}

impl Tickets {
    /// Returns an open ticket auction in which nobody has bid.
    pub fn new(good: Good) -> Self
        requires { kind_of good ≡ Kind.Ticket }
        ensures { (setup : Setup) → setup.good ≡ good → setup.rules ≡ Rules.Tickets → TicketsStandFor result setup [] }
    {
        Tickets {
            good,
            bids: [None, None, None, None, None, None, None, None],
            sides: Sides::new(),
            closed: false,
        }
    }

    /// Makes an agent's bid. It replaces what stands of the agent's earlier bid; its units then
    /// trade one by one with those of other agents, and `fills` holds the trades. The bid is refused
    /// in a closed auction, or if a buying point reaches one of the bid's own selling points; then nothing
    /// changes and there are no trades. An agent can sell what it does not have.
    pub fn bid(&mut self, at: u32, agent: Agent, points: &Points, fills: &mut Fills) -> Reply
        ensures follows { (setup : Setup) (past : List Entry) → TicketsStandFor self.old setup past → at ≡ length past →
            Follows setup past agent (Call.Bid points.now) result fills.new (TicketsStandFor self.new setup) }
        ensures with_others { All (λ trade. trade.buyer ≢ trade.seller) fills.new }
        ensures priced { All (λ trade. trade.price ≤ BID_PRICE) fills.new }
        ensures units { Spends BID_UNITS 0 fills.new }
    {
        let number = agent.get();
        fills.clear();
        if self.closed {
            return Reply::Closed;
        }
        if crosses_itself(points.as_slice()) {
            return Reply::SelfCross;
        }
        let bid = Placed {
            agent,
            position: at,
            points: points.copy(),
        };
        self.sides.trade(self.good, &bid, fills);
        self.bids[number as usize] = Some(bid);
        Reply::Taken {
            bought: bought(fills.as_slice(), number) as u8,
            sold: sold(fills.as_slice(), number) as u8,
        }
    }

    /// Withdraws what stands of an agent's bid. The call is refused and changes nothing if nothing
    /// stands, even because the whole bid was traded, or if the auction is closed.
    pub fn withdraw(&mut self, at: u32, agent: Agent) -> Reply
        ensures { (setup : Setup) (past : List Entry) → TicketsStandFor self.old setup past → at ≡ length past →
            Follows setup past agent Call.Withdraw result [] (TicketsStandFor self.new setup) }
    {
        if self.closed {
            return Reply::Closed;
        }
        if !self.sides.has_units_of(agent) {
            return Reply::NoBid;
        }
        self.sides.take_out_of(agent);
        self.bids[agent.get() as usize] = None;
        Reply::Done
    }

    /// Returns the standing points of an agent, in the order of its bid; none in a closed auction.
    pub fn own(&self, agent: Agent) -> Left
        ensures left { (setup : Setup) (past : List Entry) → TicketsStandFor self.now setup past → result ≡ standing_points_of setup.rules past agent }
        // Reading changes nothing.
        ensures stands { (setup : Setup) (past : List Entry) → TicketsStandFor self.now setup past →
            TicketsStandFor self.now setup (entry_of setup past agent Call.Own ∷ past) }
    {
        match &self.bids[agent.get() as usize] {
            Some(bid) => left_of(bid, &self.sides),
            None => Left::none(),
        }
    }

    /// Refuses a call that ticket auctions do not have, or that the caller may not make: `Closed`
    /// after the closing, except for `Own`, and otherwise `WrongCall`. It changes nothing.
    pub fn refuse(&self, caller: Caller, call: &Call) -> Reply
        requires { IsTrue (is_wrong_caller caller call.now || is_wrong_place Rules.Tickets call.now) }
        ensures { (setup : Setup) (past : List Entry) → TicketsStandFor self.now setup past →
            Follows setup past caller call.now result [] (TicketsStandFor self.now setup) }
    {
        wrong_reply(self.closed, call)
    }

    /// Closes the auction, after which nothing stands. `fills` is then empty. In a closed auction the
    /// call is refused and changes nothing.
    pub fn close(&mut self, at: u32, fills: &mut Fills) -> Reply
        ensures follows { (setup : Setup) (past : List Entry) → TicketsStandFor self.old setup past → at ≡ length past →
            Follows setup past clock Call.Close result fills.new (TicketsStandFor self.new setup) }
        ensures none { fills.new ≡ [] }
    {
        fills.clear();
        if self.closed {
            return Reply::Closed;
        }
        self.sides.clear();
        self.closed = true;
        Reply::Done
    }

    /// Returns the board of the auction after `count` entries: the highest standing bid and the lowest
    /// standing ask, in dollars, 0 if there is none. After entries that the rules give, the bid is
    /// below the ask if there are both.
    pub fn board(&self, count: u32) -> Board
        ensures board { (setup : Setup) (past : List Entry) → TicketsStandFor self.now setup past → count ≡ length past → result ≡ board setup.rules past }
        ensures bid_within { result.bid ≤ BID_PRICE }
        ensures ask_within { result.ask ≤ BID_PRICE }
        ensures uncrossed { (setup : Setup) (past : List Entry) → TicketsStandFor self.now setup past → IsLawful setup past →
            0 < result.bid → 0 < result.ask → result.bid < result.ask }
    {
        Board {
            count,
            bid: self.sides.highest_buy(),
            ask: self.sides.lowest_sell(),
            closed: self.closed,
        }
    }

    /// Returns the standing units that buy, the highest price first; at equal prices the earlier bid first, and in one bid the lower
    /// index first. There are none in a closed auction.
    pub fn buys(&self) -> &[Unit]
        ensures units { (setup : Setup) (past : List Entry) → TicketsStandFor self.now setup past →
            IsPermutation (map shown_unit (filter (λ u. u.buys) (stand setup.rules past))) result.now }
        ensures order { (setup : Setup) (past : List Entry) → TicketsStandFor self.now setup past → IsSideInOrder true result.now }
    {
        self.sides.side(true)
    }

    /// Returns the standing units that sell, the lowest price first; at equal prices the earlier bid first, and in one bid the lower
    /// index first. There are none in a closed auction.
    pub fn sells(&self) -> &[Unit]
        ensures units { (setup : Setup) (past : List Entry) → TicketsStandFor self.now setup past →
            IsPermutation (map shown_unit (filter (λ u. not u.buys) (stand setup.rules past))) result.now }
        ensures order { (setup : Setup) (past : List Entry) → TicketsStandFor self.now setup past → IsSideInOrder false result.now }
    {
        self.sides.side(false)
    }
}
