// The ranges of the numbers that a log shows of a game.
ghost use Rattle.std.specs.Prelude.{◌≡◌, true};
ghost use Rattle.game_log.specs.Prelude.{settlement_of, IsSettlement, head_of};
ghost use Rattle.game_log.specs.ShownGames.{IsShowable};

use crate::LogHead;
use crate::known::{auctions_known, cash_known, head_known};
use auction_core::Closed;
use game_text::Game;
use score_sheet::settle;

/// The holdings and the cash that a game leaves to the agents are in their ranges.
fn settlement_known(closed: &Closed) -> bool
    ensures holds { result ≡ true }
    ensures ranged { IsSettlement (settlement_of closed.now.auctions) }
{
    let accounts = settle(closed);
    let _cash = &accounts.cash;
    true
}

/// The law of ranges, as this call's contract: it says which ranges of a log that is read the parts of a played game keep.
pub fn log_ranges(game: &Game, head: &LogHead, closed: &Closed)
    ensures { IsShowable game.now (head_of head.now) closed.now }
{
    head_known(head);
    auctions_known(closed.auctions.as_slice());
    cash_known(&closed.cash);
    let _clients = &game.clients;
    prove!(settlement_known(closed));
}
