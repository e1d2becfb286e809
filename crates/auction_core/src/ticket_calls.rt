use crate::order_book::{OrderBook, agent_of, owned};
use tac_base::{Call, Caller, Fills, Reply};
use ticket_book::Tickets;
use trade_ledger::GoodBook;

impl OrderBook for Tickets {
    ghost use Rattle.ticket_book.specs.Book as tickets;

    ghost stands = { tickets.TicketsStandFor };

    ghost units_left = { λ _. 0 };

    fn act(
        &mut self,
        held: &GoodBook,
        at: u32,
        caller: Caller,
        call: &Call,
        fills: &mut Fills,
    ) -> Reply {
        match (agent_of(caller), call) {
            (None, Call::Close) => self.close(at, fills),
            (Some(agent), Call::Bid(points)) => self.bid(at, agent, points, fills),
            (Some(agent), Call::Withdraw) => self.withdraw(at, agent),
            (Some(agent), Call::Own) => owned(held, agent, self.own(agent)),
            _ => self.refuse(caller, call),
        }
    }
}
