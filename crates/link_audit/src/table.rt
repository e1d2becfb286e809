// The boards of all prefixes of the histories of a log.
ghost use Rattle.std.specs.Prelude.{◌≡◌, ◌+◌, ◌<◌, IfOk, length, map, take};
ghost use Rattle.link_audit.specs.{Legal, setup_of, AreBoards, AreLegal, AreRow, IsTable};

use crate::goods::good_of;
use auction_core::Auction;
use game_text::Game;
use log_reader::{Log, LogHistory};
use std::alloc::Global;
use tac_base::limits::GOODS;
use tac_base::{Board, Good, Memory};
use turn_lock::Kept;

/// Makes the call of the entry at a position, in an auction with all entries before it.
fn play_next(auction: &mut Auction, history: &LogHistory, position: u32)
    requires legal { Legal auction.old.setup history.now }
    requires before { auction.old.history ≡ take position history.now }
    requires inside { position < length history.now }
    ensures setup { auction.new.setup ≡ auction.old.setup }
    ensures history { auction.new.history ≡ take (position + 1) history.now }
{
    // No caller has more entries so far than it may have.
    let _entries = auction.len();
    let entry = history.entry(position).unwrap();
    let _caller = entry.caller.get();
    auction.act(entry.caller, &entry.call);
}

/// The boards of all prefixes of the history of a good. After `Memory` it returns none.
fn row_of(
    alloc: Global,
    game: &Game,
    good: Good,
    history: &LogHistory,
) -> Result<Vec<Board>, Memory>
    requires { Legal (setup_of good game.now) history.now }
    ensures { IfOk result (λ row. AreRow game.now good history.now (length history.now) row.items) }
{
    let mut auction = Auction::begin(alloc, good, game)?;
    let mut row = Vec::with_capacity(alloc, history.len() as usize + 1)?;
    row.push_reserved(auction.board());
    for position in 0..history.len() {
        play_next(&mut auction, history, position);
        row.push_reserved(auction.board());
    }
    Ok(row)
}

/// The boards of all prefixes of the histories of a log, by good and count. After `Memory` it returns none.
pub(crate) fn table(alloc: Global, game: &Game, log: &Log) -> Result<Vec<Vec<Board>>, Memory>
    requires { AreLegal game.now log.now }
    ensures boards { IfOk result (λ rows. AreBoards game.now log.now (map (λ row. row.items) rows.items)) }
    ensures table { IfOk result (λ rows. IsTable rows.items) }
{
    let mut rows = Vec::with_capacity(alloc, usize::from(GOODS))?;
    for number in 0..GOODS {
        let good = good_of(number);
        let history = log.history(good);
        let _entries = history.len();
        let row = row_of(alloc, game, good, history)?;
        rows.push_reserved(row);
    }
    Ok(rows)
}
