ghost use Rattle.std.specs.Prelude.{◌≡◌, ◌≤◌, [], length, List};
ghost use Rattle.auction_core.specs.{kind_of, Setup, Stands, kind_by, AreInRange};
ghost use Rattle.auction_rules.specs.History.{Entry};
ghost use Rattle.auction_rules.specs.Board as boards;

use crate::order_book::OrderBook;
use auction_rules::Rules;
use flight_auction::Flight;
use hotel_book::Hotel;
use tac_base::limits::BID_PRICE;
use tac_base::{Board, Call, Caller, Fills, Good, Reply};
use ticket_book::Tickets;
use trade_ledger::GoodBook;

/// The book of an auction, for each kind of good.
#[derive(Debug, Drop)]
pub(crate) enum Book {
    Flight(Flight),
    Hotel(Hotel),
    Tickets(Tickets),
}

impl Book {
    /// Returns the book of a good with its rules, in which nobody has bid.
    pub(crate) fn new(good: Good, rules: Rules) -> Book
        requires kind { kind_by rules ≡ kind_of good }
        requires range { AreInRange rules }
        ensures { (setup : Setup) → setup.good ≡ good → setup.rules ≡ rules → Stands result setup [] }
    {
        match rules {
            Rules::Flight { first, bound } => Book::Flight(Flight::new(good, first, bound)),
            Rules::Hotel { rooms, live } => Book::Hotel(Hotel::new(good, rooms, live)),
            Rules::Tickets => Book::Tickets(Tickets::new(good)),
        }
    }

    /// Returns the board of the auction after `count` entries.
    pub(crate) fn board(&self, count: u32) -> Board
        ensures board { (setup : Setup) (past : List Entry) → Stands self.now setup past → count ≡ length past → result ≡ boards.board setup.rules past }
        ensures bid_within { result.bid ≤ BID_PRICE }
        ensures ask_within { result.ask ≤ BID_PRICE }
    {
        match self {
            Book::Flight(flight) => flight.board(count),
            Book::Hotel(hotel) => hotel.board(count),
            Book::Tickets(tickets) => tickets.board(count),
        }
    }
}

impl OrderBook for Book {
    ghost use Rattle.auction_core.specs.Books as books;

    ghost stands = { books.Stands };

    ghost units_left = { books.units_left };

    fn act(
        &mut self,
        held: &GoodBook,
        at: u32,
        caller: Caller,
        call: &Call,
        fills: &mut Fills,
    ) -> Reply {
        match self {
            Book::Flight(flight) => flight.act(held, at, caller, call, fills),
            Book::Hotel(hotel) => hotel.act(held, at, caller, call, fills),
            Book::Tickets(tickets) => tickets.act(held, at, caller, call, fills),
        }
    }
}
