// Compares the posts of a log with its entries that have trades.
ghost use Rattle.std.specs.Prelude.{◌≡◌, ◌<◌, ◌↔◌, ◌++◌, List, [], ◌∷◌, Some, None, length, map, slice_get, IsTrue};
ghost use Rattle.auction_rules.specs.History.{Entry as HistoryEntry};
ghost use Rattle.log_audit.specs.{CashEntry, IsLogged, logged_history, IsEarned, IsDuePost, HasDuePost, HasPost, AreNets, AreNamed, IsLowest, IsLowestPlace, HasNamedEntry, nets_by};

use crate::goods::good_of;
use crate::places::Places;
use log_reader::{Log, LogHistory};
use tac_base::limits::GOODS;
use tac_base::{Caller, Entry, Good, Nets};
use trade_ledger::{CashCall, CashEntry};

/// Whether an entry of this caller has a trade.
fn trades_for(entry: &Entry, caller: Caller) -> bool
    ensures { IsTrue result ↔ ((0 < entry.now.trades) × (caller ≡ entry.now.caller)) }
{
    entry.trades > 0 && caller == entry.caller
}

/// Whether the parties gain the same.
fn same_nets(a: &Nets, b: &Nets) -> bool
    ensures { IsTrue result ↔ (a.now.dollars ≡ b.now.dollars) }
{
    a.dollars == b.dollars
}

/// What the trades of an entry, which the log must have, gave each party.
fn nets_at(log: &Log, earned: &[Vec<Nets>], good: Good, position: u32) -> Nets
    requires logged { IsLogged log.now }
    requires nets { AreNets log.now earned.now }
    requires inside { position < length (logged_history log.now good) }
    ensures { slice_get (map nets_by (logged_history log.now good)) position ≡ Some result }
{
    earned[usize::from(good.get())][position as usize]
}

/// Whether the good has an entry at a position, with trades, this caller and these nets.
fn is_earned(
    log: &Log,
    earned: &[Vec<Nets>],
    caller: Caller,
    good: Good,
    position: u32,
    nets: &Nets,
) -> bool
    requires logged { IsLogged log.now }
    requires nets { AreNets log.now earned.now }
    ensures { IsTrue result ↔ ((e : HistoryEntry) × (slice_get (logged_history log.now good) position ≡ Some e) × IsEarned caller nets.now e) }
{
    match log.history(good).entry(position) {
        Some(entry) => {
            trades_for(entry, caller) && same_nets(&nets_at(log, earned, good, position), nets)
        }
        None => false,
    }
}

/// Whether an entry of the cash history, if it is a post, is due, given the places that the posts before it name. Names its place.
fn is_due(log: &Log, earned: &[Vec<Nets>], places: &mut Places, entry: &CashEntry) -> bool
    requires logged { IsLogged log.now }
    requires nets { AreNets log.now earned.now }
    ensures answer { (before : List CashEntry) → AreNamed before places.old → IsTrue result ↔ IsDuePost (logged_history log.now) before entry.now.caller entry.now.call }
    ensures named { (before : List CashEntry) → AreNamed before places.old → IsTrue result → AreNamed (before ++ entry.now ∷ []) places.new }
{
    match &entry.call {
        CashCall::Post {
            good,
            position,
            nets,
        } => {
            if !is_earned(log, earned, entry.caller, *good, *position, nets)
                || places.is_named(*good, *position)
            {
                return false;
            }
            places.name(*good, *position);
            true
        }
        CashCall::Read { .. } => true,
    }
}

/// The lowest position of a post that is not due, if any. It names the places of the posts before it.
pub(crate) fn false_post(log: &Log, earned: &[Vec<Nets>], places: &mut Places) -> Option<u32>
    requires earned { AreNets log.now earned.now }
    requires none { AreNamed [] places.old }
    ensures lowest { IsLowest (HasDuePost log.now) result }
    ensures named { result ≡ None → AreNamed log.now.cash places.new }
{
    for (position, entry) in log.cash().iter().enumerate() {
        if !is_due(log, earned, places, entry) {
            return Some(position as u32);
        }
    }
    None
}

/// The lowest position, in the history of a good, of an entry with trades that no post names, if any.
fn unposted_in(history: &LogHistory, good: Good, places: &Places) -> Option<u32>
    ensures { IsLowest (HasNamedEntry history.now places.now good) result }
{
    for position in 0..history.len() {
        let entry = history.entry(position).unwrap();
        if entry.trades > 0 && !places.is_named(good, position) {
            return Some(position);
        }
    }
    None
}

/// The lowest place of an entry with trades that no post names, if any.
pub(crate) fn unposted(log: &Log, places: &Places) -> Option<(Good, u32)>
    requires { AreNamed log.now.cash places.now }
    ensures { IsLowestPlace (HasPost log.now) result }
{
    for number in 0..GOODS {
        let good = good_of(number);
        if let Some(position) = unposted_in(log.history(good), good, places) {
            return Some((good, position));
        }
    }
    None
}
