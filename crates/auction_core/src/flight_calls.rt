use crate::order_book::{OrderBook, agent_of, owned};
use flight_auction::Flight;
use tac_base::{Call, Caller, Fills, Reply};
use trade_ledger::GoodBook;

impl OrderBook for Flight {
    ghost use Rattle.flight_auction.specs.Book as flights;

    ghost stands = { flights.FlightStandsFor };

    ghost units_left = { flights.flight_units_left };

    fn act(
        &mut self,
        held: &GoodBook,
        at: u32,
        caller: Caller,
        call: &Call,
        fills: &mut Fills,
    ) -> Reply {
        match (agent_of(caller), call) {
            (None, Call::Update { tick, draw }) => self.update(at, *tick, *draw, fills),
            (None, Call::Close) => self.close(at, fills),
            (Some(agent), Call::Bid(points)) => self.bid(at, agent, points, fills),
            (Some(agent), Call::Withdraw) => self.withdraw(at, agent),
            (Some(agent), Call::Own) => owned(held, agent, self.own(agent)),
            _ => self.refuse(caller, call),
        }
    }
}
