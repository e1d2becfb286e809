ghost use Rattle.std.specs.Prelude.{All, ◌≡◌, ◌≤◌, ◌||◌, [], ◌∷◌, length, map, List, false, IsTrue, IsPermutation};
ghost use Rattle.tac_base.specs.Kinds.{kind_of};
ghost use Rattle.hotel_book.specs.{ask, clock, Setup, shown_unit, Entry, standing_points_of, stand, winning, is_wrong_caller, is_wrong_place, Follows, Spends, IsShort, AreRanked, HotelStandsFor, hotel_units_left, sale_of, with_bid};
ghost use Rattle.auction_rules.specs.Board.{board};
ghost use Rattle.auction_rules.specs.BookRules.{entry_of};

use crate::closing::fill;
use crate::quotes::{after_bid, refusal};
use crate::ranking::Ranking;
use auction_rules::{Placed, Rules, wrong_reply};
use std::marker::Model;
use tac_base::limits::BID_PRICE;
use tac_base::{Agent, Board, Call, Caller, Fills, Good, Kind, Left, Points, Reply, Unit};

/// The auction of a hotel night, by the game description: the highest units get its rooms, at the price of the unit that takes the last
/// room, or at 0 if a room is left. A bid must beat the published price, in dollars, which follows TAC. If quotes are live, which this
/// project defines, each admitted bid publishes the ask; otherwise only publications and the closing do. No call allocates memory.
#[derive(Debug, Drop)]
pub struct Hotel {
    good: Good,
    live: bool,
    bids: [Option<Placed>; 8],
    ranking: Ranking,
    published: u16,
    closed: bool,
}

impl Model for Hotel {
    ghost use Rattle.hotel_book.specs.Book.{HotelBook, AreUnitsKept};

    ghost Value = { HotelBook };

    ghost view = { λ h. record { good = h.good; rooms = h.ranking.rooms; live = h.live; bids = h.bids; published = h.published; closed = h.closed } };

    // The ranked units are those that stand.
    ghost invariant = { λ h. AreUnitsKept h.bids h.closed h.ranking.units h.published };
}

impl Hotel {
    /// Returns an open hotel night in which nobody has bid, with 1 to 64 rooms, and with live quotes or not.
    pub fn new(good: Good, rooms: u8, live: bool) -> Self
        requires kind { kind_of good ≡ Kind.Hotel }
        requires rooms { 1 ≤ rooms }
        ensures { (setup : Setup) → setup.good ≡ good → setup.rules ≡ Rules.Hotel rooms live → HotelStandsFor result setup [] }
    {
        Hotel {
            good,
            live,
            bids: [None, None, None, None, None, None, None, None],
            ranking: Ranking::new(rooms),
            published: 0,
            closed: false,
        }
    }

    /// Makes an agent's bid, which replaces its earlier one. A refused bid changes nothing.
    /// `fills` is then empty.
    pub fn bid(&mut self, at: u32, agent: Agent, points: &Points, fills: &mut Fills) -> Reply
        ensures follows { (setup : Setup) (past : List Entry) → HotelStandsFor self.old setup past → at ≡ length past →
            Follows setup past agent (Call.Bid points.now) result fills.new (HotelStandsFor self.new setup) }
        ensures none { fills.new ≡ [] }
        ensures units { Spends (hotel_units_left self.old) (hotel_units_left self.new) fills.new }
    {
        fills.clear();
        let won = self.ranking.winning(agent);
        match refusal(won, self.published, self.closed, points) {
            Some(reply) => reply,
            None => {
                self.place(at, agent, points);
                Reply::Taken { bought: 0, sold: 0 }
            }
        }
    }

    /// Stores an admitted bid in place of the agent's earlier one.
    fn place(&mut self, at: u32, agent: Agent, points: &Points)
        requires { self.old.closed ≡ false }
        ensures { self.new ≡ with_bid self.old (record { agent = agent; position = at; points = points.now }) }
    {
        let number = usize::from(agent.get());
        let bid = Placed {
            agent,
            position: at,
            points: points.copy(),
        };
        self.ranking.replace(&bid);
        self.bids[number] = Some(bid);
        self.published = after_bid(self.live, self.ranking.ask(), self.published);
    }

    /// Publishes the ask. In a closed hotel the call is refused and changes nothing.
    pub fn publish(&mut self, at: u32) -> Reply
        ensures follows { (setup : Setup) (past : List Entry) → HotelStandsFor self.old setup past → at ≡ length past →
            Follows setup past clock Call.Publish result [] (HotelStandsFor self.new setup) }
        ensures units { hotel_units_left self.new ≤ hotel_units_left self.old }
    {
        if self.closed {
            return Reply::Closed;
        }
        self.published = self.ranking.ask();
        Reply::Done
    }

    /// Closes the hotel: sells the rooms and publishes the ask. `fills` then holds the trades.
    /// In a closed hotel the call is refused and changes nothing.
    pub fn close(&mut self, at: u32, fills: &mut Fills) -> Reply
        ensures follows { (setup : Setup) (past : List Entry) → HotelStandsFor self.old setup past → at ≡ length past →
            Follows setup past clock Call.Close result fills.new (HotelStandsFor self.new setup) }
        // It sells as many units as stand, up to the rooms.
        ensures sells { (setup : Setup) (past : List Entry) → HotelStandsFor self.old setup past → self.old.closed ≡ false →
            result ≡ sale_of self.old.rooms (stand setup.rules past) }
        ensures units { Spends (hotel_units_left self.old) (hotel_units_left self.new) fills.new }
        ensures short { All IsShort fills.new }
    {
        if self.closed {
            fills.clear();
            return Reply::Closed;
        }
        fill(fills, self.good, &self.ranking);
        let units = self.ranking.taken();
        let price = self.ranking.ask();
        self.ranking.clear();
        self.published = price;
        self.closed = true;
        Reply::Sold { units, price }
    }

    /// Returns the standing units in order of precedence; none in a closed hotel.
    pub fn units(&self) -> &[Unit]
        ensures units { (setup : Setup) (past : List Entry) →
            HotelStandsFor self.now setup past → IsPermutation (map shown_unit (stand setup.rules past)) result.now }
        ensures order { (setup : Setup) (past : List Entry) → HotelStandsFor self.now setup past → AreRanked result.now }
    {
        self.ranking.units()
    }

    /// Returns the ask of the standing units, in dollars, published or not: 0 if fewer stand than there are rooms.
    pub fn ask(&self) -> u16
        ensures ask { (setup : Setup) (past : List Entry) →
            HotelStandsFor self.now setup past → result ≡ ask self.now.rooms (stand setup.rules past) }
        ensures within { result ≤ BID_PRICE }
    {
        self.ranking.ask()
    }

    /// Returns how many of the agent's standing units would win if the hotel closed now.
    pub fn winning(&self, agent: Agent) -> u8
        ensures { (setup : Setup) (past : List Entry) →
            HotelStandsFor self.now setup past → result ≡ winning self.now.rooms (stand (Rules.Hotel self.now.rooms self.now.live) past) agent }
    {
        self.ranking.winning(agent)
    }

    /// Returns the standing points of an agent, in the order of its bid; none in a closed hotel.
    #[tactic(auto, using(crate::proofs::Keeping::idle_keeps, auction_rules::proofs::Idle::own_idle))]
    pub fn own(&self, agent: Agent) -> Left
        ensures left { (setup : Setup) (past : List Entry) → HotelStandsFor self.now setup past →
            result ≡ standing_points_of setup.rules past agent }
        // Reading changes nothing.
        ensures stands { (setup : Setup) (past : List Entry) → HotelStandsFor self.now setup past →
            HotelStandsFor self.now setup (entry_of setup past agent Call.Own ∷ past) }
    {
        match &self.bids[agent.get() as usize] {
            Some(bid) if !self.closed => Left::new(bid.points.as_slice()),
            _ => Left::none(),
        }
    }

    /// Refuses a call that hotels do not have, or that the caller may not make: `Closed` in a closed
    /// hotel, except for `Own`, and otherwise `WrongCall`. It changes nothing.
    #[tactic(auto, using(crate::proofs::Keeping::follows_wrong))]
    pub fn refuse(&self, caller: Caller, call: &Call) -> Reply
        requires { IsTrue (is_wrong_caller caller call.now || is_wrong_place (Rules.Hotel self.now.rooms self.now.live) call.now) }
        ensures { (setup : Setup) (past : List Entry) → HotelStandsFor self.now setup past →
            Follows setup past caller call.now result [] (HotelStandsFor self.now setup) }
    {
        wrong_reply(self.closed, call)
    }

    /// Returns the board of the hotel after `count` entries. Its bid is 0, and its ask is the published price.
    pub fn board(&self, count: u32) -> Board
        ensures board { (setup : Setup) (past : List Entry) →
            HotelStandsFor self.now setup past → count ≡ length past → result ≡ board setup.rules past }
        ensures no_bid { result.bid ≡ 0 }
        ensures ask_within { result.ask ≤ BID_PRICE }
    {
        Board {
            count,
            bid: 0,
            ask: self.published,
            closed: self.closed,
        }
    }
}
