// Plays the histories of a log again by the rules, call by call.
ghost use Rattle.std.specs.Prelude.{◌≡◌, ◌+◌, ◌<◌, ◌≤◌, ◌↔◌, ◌++◌, [], ◌∷◌, take, length, reverse, slice_index, slice_set, IfOk, IfSome, IsSome, IsTrue};
ghost use Rattle.log_audit.specs.{AreCounts, IsRuled, IsStruckIfFair, IsReplay, AreReplays};
ghost use Rattle.log_audit.specs.Prelude.{clock, entry_of, entries_of, cap, setup_of, IsLogged};
ghost use Rattle.auction_core.specs.Calls.{IsFit};
ghost use Rattle.auction_rules.specs.Effects as effects;

use crate::goods::good_of;
use auction_core::Auction;
use game_text::Game;
use log_reader::{Log, LogHistory};
use std::alloc::Global;
use tac_base::limits::{AGENT_CALLS, CLOCK_CALLS, GOODS};
use tac_base::{Caller, Entry, Good, Memory, Nets, Trade, same_reply};
use turn_lock::Kept;

/// The result of playing a history again.
#[derive(Drop)]
pub(crate) enum Replay {
    /// Each entry is the one that the rules give: this has the auction after them all, and what the trades of each gave the parties.
    Fair { auction: Auction, nets: Vec<Nets> },
    /// The entry at this position is the first that the rules do not give.
    Unfair { position: u32 },
}

/// The result of playing the histories of all goods again.
#[derive(Drop)]
pub(crate) enum Replays {
    /// Each entry is the one that the rules give: this has the auctions by good, and by good and position what the trades gave the parties.
    Fair {
        auctions: Vec<Auction>,
        nets: Vec<Vec<Nets>>,
    },
    /// The entry of this good at this position is the first that the rules do not give.
    Unfair {
        good: Good,
        position: u32,
    },
}

/// Whether a caller has an entry left, after this many of each caller.
fn has_room(counts: &[u32; 9], caller: Caller) -> bool
    ensures room { IsTrue result ↔ (slice_index counts.now caller < cap caller) }
    ensures known { caller ≤ clock }
{
    let cap = if caller == Caller::clock() {
        CLOCK_CALLS
    } else {
        AGENT_CALLS
    };
    counts[usize::from(caller.get())] < cap
}

/// Counts one more entry of a caller.
fn count(counts: &mut [u32; 9], caller: Caller)
    requires { slice_index counts.old caller < AGENT_CALLS }
    ensures { counts.new ≡ slice_set counts.old caller (slice_index counts.old caller + 1) }
{
    counts[usize::from(caller.get())] += 1;
}

/// Whether two lists have the same trades in the same order.
fn same_trades(a: &[Trade], b: &[Trade]) -> bool
    ensures { IsTrue result ↔ (a.now ≡ b.now) }
{
    a == b
}

/// Makes the call of an entry in the auction. Returns what its trades gave each party, or None if the reply or the trades are not those
/// of the entry.
fn strike(auction: &mut Auction, entry: &Entry, trades: &[Trade]) -> Option<Nets>
    requires fit { IsFit entry.now.call }
    requires room { entries_of auction.old.history entry.now.caller < cap entry.now.caller }
    ensures setup { auction.new.setup ≡ auction.old.setup }
    ensures history { auction.new.history ≡ auction.old.history ++ entry_of auction.old.setup (reverse auction.old.history) entry.now.caller entry.now.call ∷ [] }
    ensures same { IsSome result ↔ IsRuled auction.old.setup auction.old.history entry.now trades.now }
    ensures nets { IfSome result (λ nets. nets.dollars ≡ effects.nets trades.now) }
{
    let position = auction.len();
    let struck = auction.act(entry.caller, &entry.call);
    if same_reply(&struck.reply, &entry.reply) && same_trades(auction.trades_of(position), trades) {
        Some(struck.nets)
    } else {
        None
    }
}

/// Makes the call of the next entry of a history, in an auction with the entries before it. Returns what its trades gave each party, or None
/// if the entry is not fair.
fn strike_next(auction: &mut Auction, counts: &mut [u32; 9], history: &LogHistory) -> Option<Nets>
    requires before { auction.old.history ≡ take (length auction.old.history) history.now }
    requires inside { length auction.old.history < length history.now }
    requires counted { AreCounts auction.old.history counts.old }
    ensures setup { auction.new.setup ≡ auction.old.setup }
    ensures struck { IsStruckIfFair auction.old.setup history.now (length auction.old.history) auction.new.history counts.new result }
{
    let position = auction.len();
    let entry = history.entry(position).unwrap();
    if !has_room(counts, entry.caller) {
        return None;
    }
    count(counts, entry.caller);
    strike(auction, entry, history.trades_of(position))
}

/// Plays the history of a good again. After `Memory` it returns nothing.
fn play_again(
    alloc: Global,
    game: &Game,
    good: Good,
    history: &LogHistory,
) -> Result<Replay, Memory>
    ensures { IfOk result (IsReplay (setup_of good game.now) history.now) }
{
    let mut auction = Auction::begin(alloc, good, game)?;
    let mut counts = [0; 9];
    let mut nets = Vec::with_capacity(alloc, history.len() as usize)?;
    for position in 0..history.len() {
        match strike_next(&mut auction, &mut counts, history) {
            Some(struck) => nets.push_reserved(struck),
            None => return Ok(Replay::Unfair { position }),
        }
    }
    Ok(Replay::Fair { auction, nets })
}

/// Plays the histories of all goods again. After `Memory` it returns nothing.
pub(crate) fn replay_all(alloc: Global, game: &Game, log: &Log) -> Result<Replays, Memory>
    ensures played { IfOk result (AreReplays game.now log.now) }
    // The whole log is in its ranges.
    ensures logged { IsLogged log.now }
{
    // The log has 28 histories, since it is in its ranges.
    let _head = log.head();
    let mut auctions = Vec::with_capacity(alloc, usize::from(GOODS))?;
    let mut nets = Vec::with_capacity(alloc, usize::from(GOODS))?;
    for number in 0..GOODS {
        let good = good_of(number);
        match play_again(alloc, game, good, log.history(good))? {
            Replay::Fair {
                auction,
                nets: of_good,
            } => {
                auctions.push_reserved(auction);
                nets.push_reserved(of_good);
            }
            Replay::Unfair { position } => return Ok(Replays::Unfair { good, position }),
        }
    }
    Ok(Replays::Fair { auctions, nets })
}
