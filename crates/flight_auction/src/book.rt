ghost use Rattle.std.specs.Prelude.{◌≡◌, ◌+◌, ◌≤◌, ◌||◌, [], ◌∷◌, ◌++◌, IsTrue, length, List, All, pos, negsuc, ◌≤ℤ◌};
ghost use Rattle.tac_base.specs.Kinds.{kind_of};
ghost use Rattle.flight_auction.specs.{Setup, Entry, standing_points_of, is_wrong_caller, is_wrong_place, entry_of, Follows, Spends, IsShort, owned_by, FlightStandsFor, IsPaid, flight_units_left};
ghost use Rattle.auction_rules.specs.Board.{board};

use crate::prices::next_price;
use crate::sales::{forget, has_points, place, points_of, sell};
use arrayvec::ArrayVec;
use auction_rules::{Rules, StandingPoint, bought, sells, wrong_reply};
use std::marker::Model;
use tac_base::limits::{BID_UNITS, STANDING_UNITS, UPDATE_TICKS};
use tac_base::{Agent, Board, Call, Caller, Fills, Good, Kind, Left, Points, Reply, Tick};

/// The auction of a flight. By the game description the house sells any number of seats at a price, in
/// dollars, that starts at 250 to 400 and stays in 150 to 800.
///
/// A point of a bid is sold whole, or it stands. Standing points are in the order in which they are
/// sold: by the position of their bid, and then as in the bid. No call allocates memory.
#[derive(Debug, Drop)]
pub struct Flight {
    good: Good,
    bound: i8,
    price: u16,
    standing: ArrayVec<StandingPoint, STANDING_UNITS>,
    closed: bool,
}

impl Model for Flight {
    ghost use Rattle.flight_auction.specs.Book.{FlightBook, IsFlightSound};

    ghost Value = { FlightBook };

    ghost view = { λ f. record { good = f.good; bound = f.bound; price = f.price; standing = f.standing.items; closed = f.closed } };

    ghost invariant = { λ f. IsFlightSound f.bound f.price f.standing.items };
}

impl Flight {
    /// Returns an open flight with a first price of 250 to 400 dollars, a bound of -10 to 30, and no bids.
    pub fn new(good: Good, first: u16, bound: i8) -> Self
        requires kind { kind_of good ≡ Kind.Flight }
        requires first_from { 250 ≤ first }
        requires first_to { first ≤ 400 }
        requires bound_from { negsuc 9 ≤ℤ bound }
        requires bound_to { bound ≤ℤ pos 30 }
        ensures { (setup : Setup) → setup.good ≡ good → setup.rules ≡ Rules.Flight first bound → FlightStandsFor result setup [] }
    {
        Flight {
            good,
            bound,
            price: first,
            standing: ArrayVec::new(),
            closed: false,
        }
    }

    /// Makes an agent's bid. It replaces what stands of the agent's earlier bid, and its points at the price
    /// or above are sold at once: `fills` then holds the trades. The bid is refused in a closed flight
    /// or if one of its points sells; then nothing changes and there are no trades.
    pub fn bid(&mut self, at: u32, agent: Agent, points: &Points, fills: &mut Fills) -> Reply
        ensures follows { (setup : Setup) (past : List Entry) → FlightStandsFor self.old setup past → at ≡ length past →
            Follows setup past agent (Call.Bid points.now) result fills.new (FlightStandsFor self.new setup) }
        ensures paid { All (IsPaid (self.old.standing ++ owned_by agent points.now)) fills.new }
        ensures units { Spends (flight_units_left self.old + BID_UNITS) (flight_units_left self.new) fills.new }
        ensures short { All IsShort fills.new }
    {
        let number = agent.get();
        fills.clear();
        if self.closed {
            return Reply::Closed;
        }
        let points = points.as_slice();
        if sells(points) {
            return Reply::Sell;
        }
        forget(&mut self.standing, number);
        place(&mut self.standing, agent, points);
        sell(&mut self.standing, self.good, self.price, fills);
        Reply::Taken {
            bought: bought(fills.as_slice(), number) as u8,
            sold: 0,
        }
    }

    /// Withdraws what stands of an agent's bid. If nothing stands, or in a closed flight,
    /// the call is refused and changes nothing.
    pub fn withdraw(&mut self, at: u32, agent: Agent) -> Reply
        ensures follows { (setup : Setup) (past : List Entry) → FlightStandsFor self.old setup past → at ≡ length past →
            Follows setup past agent Call.Withdraw result [] (FlightStandsFor self.new setup) }
        ensures units { flight_units_left self.new ≤ flight_units_left self.old }
    {
        let number = agent.get();
        if self.closed {
            return Reply::Closed;
        }
        if !has_points(&self.standing, number) {
            return Reply::NoBid;
        }
        forget(&mut self.standing, number);
        Reply::Done
    }

    /// Returns the standing points of an agent, in the order of its bid; none in a closed flight.
    #[tactic(auto, using(crate::proofs::Keeping::idle_keeps, auction_rules::proofs::Idle::own_idle))]
    pub fn own(&self, agent: Agent) -> Left
        ensures left { (setup : Setup) (past : List Entry) → FlightStandsFor self.now setup past → result ≡ standing_points_of setup.rules past agent }
        // Reading changes nothing.
        ensures stands { (setup : Setup) (past : List Entry) → FlightStandsFor self.now setup past →
            FlightStandsFor self.now setup (entry_of setup past agent Call.Own ∷ past) }
    {
        Left::new(&points_of(&self.standing, agent.get()))
    }

    /// Refuses a call that flights do not have, or that the caller may not make: `Closed` in a closed
    /// flight, except for `Own`, and otherwise `WrongCall`. It changes nothing.
    #[tactic(auto, using(crate::proofs::Keeping::follows_wrong))]
    pub fn refuse(&self, caller: Caller, call: &Call) -> Reply
        requires { IsTrue (is_wrong_caller caller call.now || is_wrong_place (Rules.Flight 300 (pos 0)) call.now) }
        ensures { (setup : Setup) (past : List Entry) → FlightStandsFor self.now setup past →
            Follows setup past caller call.now result [] (FlightStandsFor self.now setup) }
    {
        wrong_reply(self.closed, call)
    }

    /// Updates the price at a tick, 1 to 53, with a draw. The points at the new price or
    /// above are sold: `fills` then holds the trades. In a closed flight the call is refused and changes
    /// nothing.
    pub fn update(&mut self, at: u32, tick: Tick, draw: u32, fills: &mut Fills) -> Reply
        requires { tick ≤ UPDATE_TICKS }
        ensures follows { (setup : Setup) (past : List Entry) → FlightStandsFor self.old setup past → at ≡ length past →
            Follows setup past 8 (Call.Update tick draw) result fills.new (FlightStandsFor self.new setup) }
        ensures paid { All (IsPaid self.old.standing) fills.new }
        ensures units { Spends (flight_units_left self.old) (flight_units_left self.new) fills.new }
        ensures short { All IsShort fills.new }
    {
        if self.closed {
            fills.clear();
            return Reply::Closed;
        }
        self.price = next_price(self.price, self.bound, tick, draw);
        sell(&mut self.standing, self.good, self.price, fills);
        Reply::Done
    }

    /// Closes the flight, after which nothing stands. `fills` is then empty. In a closed flight the call
    /// is refused and changes nothing.
    pub fn close(&mut self, at: u32, fills: &mut Fills) -> Reply
        ensures follows { (setup : Setup) (past : List Entry) → FlightStandsFor self.old setup past → at ≡ length past →
            Follows setup past 8 Call.Close result fills.new (FlightStandsFor self.new setup) }
        ensures none { fills.new ≡ [] }
        ensures units { Spends (flight_units_left self.old) (flight_units_left self.new) fills.new }
    {
        fills.clear();
        if self.closed {
            return Reply::Closed;
        }
        self.standing.clear();
        self.closed = true;
        Reply::Done
    }

    /// Returns the board of the flight after `count` entries. Its bid is 0, and its ask is the price.
    pub fn board(&self, count: u32) -> Board
        ensures board { (setup : Setup) (past : List Entry) → FlightStandsFor self.now setup past → count ≡ length past → result ≡ board setup.rules past }
        ensures no_bid { result.bid ≡ 0 }
        ensures ask_from { 150 ≤ result.ask }
        ensures ask_to { result.ask ≤ 800 }
    {
        Board {
            count,
            bid: 0,
            ask: self.price,
            closed: self.closed,
        }
    }
}
