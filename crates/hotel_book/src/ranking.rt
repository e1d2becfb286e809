// A hotel's units in their order, with the ask and the winning numbers that they give.
ghost use Rattle.std.specs.Prelude.{◌≡◌, ◌+◌, ◌≤◌, ℕ, min, not, ◌==◌, [], length, map, sum_by, filter, count_by};
ghost use Rattle.hotel_book.specs.{Unit as ShownUnit, agents, units_of, shown_unit, AreSortedUnits};
ghost use Rattle.hotel_book.specs.Ranked as ranked;

use crate::order::{put_all, take_out};
use arrayvec::ArrayVec;
use auction_rules::Placed;
use std::marker::Model;
use tac_base::limits::{BID_PRICE, BID_UNITS, STANDING_UNITS};
use tac_base::{Agent, Unit};

/// The standing units of a hotel, in order of precedence, with the ask and the number of rooms that each agent wins.
/// Contracts see it as its rooms and its units.
#[derive(Debug, Drop)]
pub(crate) struct Ranking {
    rooms: u8,
    units: ArrayVec<Unit, STANDING_UNITS>,
    ask: u16,
    winning: [u8; 8],
}

impl Model for Ranking {
    ghost use Rattle.hotel_book.specs.Ranked.{Ranked, IsRanked};

    ghost Value = { Ranked };

    ghost view = { λ r. record { rooms = r.rooms; units = r.units.items } };

    ghost invariant = { λ r. IsRanked r.rooms r.units.items r.ask r.winning };
}

/// Returns the price of the unit that takes the last room, or 0 if a room is left.
fn last_price(rooms: u8, units: &[Unit]) -> u16
    requires { 1 ≤ rooms }
    ensures { result ≡ ranked.last_price rooms units.now }
{
    match units.get(usize::from(rooms) - 1) {
        Some(unit) => unit.price,
        None => 0,
    }
}

/// Returns how many rooms the agent with this number wins.
fn won(rooms: u8, units: &[Unit], number: u8) -> u8
    ensures { result ≡ ranked.won rooms units.now number }
{
    units
        .iter()
        .take(usize::from(rooms))
        .filter(|unit| unit.agent.get() == number)
        .count() as u8
}

/// Returns how many rooms each agent wins.
fn winning_numbers(rooms: u8, units: &[Unit]) -> [u8; 8]
    ensures { result ≡ map (ranked.won rooms units.now) agents }
{
    [
        won(rooms, units, 0),
        won(rooms, units, 1),
        won(rooms, units, 2),
        won(rooms, units, 3),
        won(rooms, units, 4),
        won(rooms, units, 5),
        won(rooms, units, 6),
        won(rooms, units, 7),
    ]
}

impl Ranking {
    /// Returns a ranking without units, with this many rooms.
    pub(crate) fn new(rooms: u8) -> Ranking
        requires { 1 ≤ rooms }
        ensures rooms { result.rooms ≡ rooms }
        ensures none { result.units ≡ [] }
    {
        Ranking {
            rooms,
            units: ArrayVec::new(),
            ask: 0,
            winning: [0; 8],
        }
    }

    /// Returns the units in order of precedence.
    pub(crate) fn units(&self) -> &[Unit]
        ensures value { result.now ≡ self.now.units }
        ensures sorted { AreSortedUnits self.now.units }
    {
        self.units.as_slice()
    }

    /// Returns the price of the unit that takes the last room, or 0 if a room is left.
    pub(crate) fn ask(&self) -> u16
        ensures value { result ≡ ranked.last_price self.now.rooms self.now.units }
        ensures within { result ≤ BID_PRICE }
        ensures some { 1 ≤ self.now.rooms }
        ensures sorted { AreSortedUnits self.now.units }
    {
        self.ask
    }

    /// Returns how many rooms the agent wins.
    pub(crate) fn winning(&self, agent: Agent) -> u8
        ensures value { result ≡ ranked.won self.now.rooms self.now.units agent }
        ensures agent { agent ≤ 7 }
        ensures sorted { AreSortedUnits self.now.units }
    {
        self.winning[usize::from(agent.get())]
    }

    /// Returns how many rooms are taken.
    pub(crate) fn taken(&self) -> u8
        ensures value { result ≡ min self.now.rooms (length self.now.units) }
        ensures few { length self.now.units ≤ STANDING_UNITS }
    {
        usize::from(self.rooms).min(self.units.len()) as u8
    }

    /// Replaces the units of the bid's agent with those of the bid.
    pub(crate) fn replace(&mut self, bid: &Placed)
        requires { count_by (λ u. not (u.agent == bid.now.agent)) self.old.units + BID_UNITS ≤ STANDING_UNITS }
        ensures rooms { self.new.rooms ≡ self.old.rooms }
        ensures few { length (units_of bid.now) ≤ BID_UNITS }
        ensures units { (weight : ShownUnit → ℕ) →
            sum_by weight self.new.units
            ≡ sum_by weight (filter (λ u. not (u.agent == bid.now.agent)) self.old.units) + sum_by (λ u. weight (shown_unit u)) (units_of bid.now) }
    {
        take_out(&mut self.units, bid.agent.get());
        put_all(&mut self.units, bid);
        self.ask = last_price(self.rooms, &self.units);
        self.winning = winning_numbers(self.rooms, &self.units);
    }

    /// Removes all units.
    pub(crate) fn clear(&mut self)
        ensures rooms { self.new.rooms ≡ self.old.rooms }
        ensures none { self.new.units ≡ [] }
    {
        self.units.clear();
        self.ask = 0;
        self.winning = [0; 8];
    }
}
