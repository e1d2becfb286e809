// States what the types of a game's parts imply about the numbers in its log.
ghost use Rattle.std.specs.Prelude.{◌≡◌, ◌≤◌, true, length, All};
ghost use Rattle.std.specs.List.{AllByRecursion};
ghost use Rattle.game_log.specs.Prelude.{IsLoggableCash, IsHistory, head_of, IsVerdict, IsEnd, IsHead, IsAuction, IsCash, IsLoggedVerdict};
ghost use Rattle.game_log.specs.ShownGames.{HasSeats};

use crate::LogHead;
use auction_core::Auction;
use line_protocol::{Cause, Verdict};
use tac_base::Agent;
use tac_base::limits::{AUCTION_ENTRIES, CASH_ENTRIES};
use trade_ledger::CashBook;
use turn_lock::Kept;

/// The seat in a verdict is one of the eight agents'.
fn verdict_known(_verdict: Verdict) -> bool
    ensures holds { result ≡ true }
    ensures seat { IsLoggedVerdict _verdict }
    ensures number { IsVerdict _verdict }
{
    true
}

/// The agent of a session's end is one of the eight.
fn end_known(end: &(Agent, Cause)) -> bool
    ensures holds { result ≡ true }
    ensures number { IsEnd end.now }
{
    end.0.get() <= 7
}

/// The seats and the numbers of a head are in their ranges.
pub(crate) fn head_known(head: &LogHead)
    ensures seats { HasSeats (head_of head.now) }
    ensures numbers { IsHead (head_of head.now) }
{
    match head {
        LogHead::Play => {}
        LogHead::Serve {
            verdicts,
            ends,
            missed,
        } => {
            prove!(verdicts.iter().all(|verdict| verdict_known(*verdict)));
            prove!(ends.iter().all(|end| end_known(end)));
            let _number = *missed;
        }
    }
}

/// The history of an auction is in its ranges.
fn auction_known(auction: &Auction) -> bool
    ensures holds { result ≡ true }
    ensures history { IsHistory auction.now.setup.good auction.now.history }
    ensures shown { IsAuction auction.now }
{
    let _good = auction.good().get();
    auction.len() <= AUCTION_ENTRIES
}

/// The history of each auction is in its ranges.
pub(crate) fn auctions_known(auctions: &[Auction])
    ensures histories { AllByRecursion (λ auction. IsHistory auction.setup.good auction.history) auctions.now }
    ensures shown { AllByRecursion IsAuction auctions.now }
{
    prove!(auctions.iter().all(|auction| auction_known(auction)));
}

/// The cash history is in its ranges, and has no more entries than allowed.
pub(crate) fn cash_known(cash: &CashBook)
    ensures few { length cash.now ≤ CASH_ENTRIES }
    ensures entries { All IsLoggableCash cash.now }
    ensures shown { IsCash cash.now }
{
    cash.board();
    cash.entry(0);
}
