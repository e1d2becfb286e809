use crate::order_book::{OrderBook, agent_of, owned};
use hotel_book::Hotel;
use tac_base::{Call, Caller, Fills, Reply};
use trade_ledger::GoodBook;

impl OrderBook for Hotel {
    ghost use Rattle.hotel_book.specs.Book as hotels;

    ghost stands = { hotels.HotelStandsFor };

    ghost units_left = { hotels.hotel_units_left };

    fn act(
        &mut self,
        held: &GoodBook,
        at: u32,
        caller: Caller,
        call: &Call,
        fills: &mut Fills,
    ) -> Reply {
        match (agent_of(caller), call) {
            (None, Call::Publish) => self.publish(at),
            (None, Call::Close) => self.close(at, fills),
            (Some(agent), Call::Bid(points)) => self.bid(at, agent, points, fills),
            (Some(agent), Call::Own) => owned(held, agent, self.own(agent)),
            _ => self.refuse(caller, call),
        }
    }
}
