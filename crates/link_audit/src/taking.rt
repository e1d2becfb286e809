// Finds the turn of each line in order, by what the log has next.
ghost use Rattle.std.specs.Prelude.{◌≡◌, ◌≤◌, Ok, Some, false, length, slice_get, IsTrue, option_map};
ghost use Rattle.link_audit.specs.{IsShown, due_post, logged_history, Asks, asked_call, FindsPosts, FindsShown, FitsReply, HasTruePosts, IsStuck, IsTable, IsTaken, IsWide, subject_of};
ghost use Rattle.auction_rules.specs.History.{Entry as HistoryEntry};
ghost use Rattle.line_protocol.specs.declared.asking.Request.TheVariants as requests;

use crate::calls::makes;
use crate::cash::{amount_read, is_post, next_cash};
use crate::next::next_entry;
use crate::places::Places;
use crate::replies::fits;
use agent_gate::Dialect;
use line_protocol::{Request, Said};
use log_reader::Log;
use tac_base::limits::{AGENT_CALLS, CASH_READINGS};
use tac_base::{Agent, Board, Entry, Good};

/// Returns where the cash history continues, if the post due to an entry is the agent's next entry in it.
fn post_next(
    log: &Log,
    agent: Agent,
    cash: u32,
    good: Good,
    position: u32,
    entry: &Entry,
) -> Option<u32>
    requires posts { HasTruePosts log.now }
    requires shown { IsShown (logged_history log.now good) position (Some entry.now) }
    ensures { (e : HistoryEntry) → slice_get (logged_history log.now good) position ≡ Some e → FindsPosts agent log.now.cash cash (due_post good position e) result }
{
    if entry.trades == 0 {
        return Some(cash);
    }
    let place = next_cash(log, cash, agent)?;
    if is_post(&log.cash()[place as usize], good, position) {
        Some(place + 1)
    } else {
        None
    }
}

/// Takes a request that makes a call at this good.
pub(crate) fn take_call<D: Dialect>(
    log: &Log,
    boards: &[Vec<Board>],
    agent: Agent,
    places: &mut Places,
    dialect: &D,
    request: &Request,
    good: Good,
    heard: bool,
    reply: &[u8],
) -> bool
    requires posts { HasTruePosts log.now }
    requires asks { option_map (λ p. p.0) (asked_call request.now) ≡ Some good }
    ensures yes { IsTrue result → IsTaken (λ item. item ≡ Asks (Ok request.now)) (FitsReply (D.form dialect.now) heard reply.now) (subject_of log.now boards.now agent) places.old places.new }
    ensures no { result ≡ false → IsStuck (λ item. item ≡ Asks (Ok request.now)) (FitsReply (D.form dialect.now) heard reply.now) (subject_of log.now boards.now agent) places.old }
{
    let row = usize::from(good.get());
    if places.made[row] == AGENT_CALLS {
        return fits(dialect, &Said::Spent, heard, reply);
    }
    let history = log.history(good);
    let Some(position) = next_entry(history, places.next[row], agent) else {
        return false;
    };
    let entry = history.entry(position).unwrap();
    if places.made[row] > AGENT_CALLS || position < places.seen[row] {
        return false;
    }
    if !makes(request, &entry.call) {
        return false;
    }
    if !fits(
        dialect,
        &Said::At(position, entry.reply.copy()),
        heard,
        reply,
    ) {
        return false;
    }
    let Some(cash) = post_next(log, agent, places.cash, good, position, entry) else {
        return false;
    };
    places.next[row] = position + 1;
    places.made[row] += 1;
    places.seen[row] = position + 1;
    places.cash = cash;
    true
}

/// Takes a request to read the cash.
pub(crate) fn take_reading<D: Dialect>(
    log: &Log,
    boards: &[Vec<Board>],
    agent: Agent,
    places: &mut Places,
    dialect: &D,
    heard: bool,
    reply: &[u8],
) -> bool
    requires posts { HasTruePosts log.now }
    ensures yes { IsTrue result → IsTaken (λ item. item ≡ Asks (Ok requests.Cash)) (FitsReply (D.form dialect.now) heard reply.now) (subject_of log.now boards.now agent) places.old places.new }
    ensures no { result ≡ false → IsStuck (λ item. item ≡ Asks (Ok requests.Cash)) (FitsReply (D.form dialect.now) heard reply.now) (subject_of log.now boards.now agent) places.old }
{
    if places.readings == CASH_READINGS {
        return fits(dialect, &Said::Spent, heard, reply);
    }
    let Some(place) = next_cash(log, places.cash, agent) else {
        return false;
    };
    let Some(dollars) = amount_read(&log.cash()[place as usize]) else {
        return false;
    };
    if places.readings > CASH_READINGS {
        return false;
    }
    if !fits(dialect, &Said::Cash(place, dollars), heard, reply) {
        return false;
    }
    places.cash = place + 1;
    places.readings += 1;
    true
}

/// The places of all goods.
fn width(places: &Places) -> usize
    ensures { IsWide places.now }
{
    places.next.len()
}

/// The first count, at or after `from`, of a board that has this line.
fn first_shown<D: Dialect>(
    dialect: &D,
    shown: &[Board],
    from: u32,
    heard: bool,
    reply: &[u8],
) -> Option<u32>
    requires { length shown.now ≤ 8257 }
    ensures { FindsShown (FitsReply (D.form dialect.now) heard reply.now) shown.now from result }
{
    for count in from as usize..shown.len() {
        if fits(dialect, &Said::Quote(shown[count]), heard, reply) {
            return Some(count as u32);
        }
    }
    None
}

/// Takes a request for a quote: the first board that has this line, at or after the count last seen, answered it.
pub(crate) fn take_quote<D: Dialect>(
    log: &Log,
    boards: &[Vec<Board>],
    agent: Agent,
    places: &mut Places,
    dialect: &D,
    good: Good,
    heard: bool,
    reply: &[u8],
) -> bool
    requires table { IsTable boards.now }
    ensures yes { IsTrue result → IsTaken (λ item. item ≡ Asks (Ok (requests.Quote good))) (FitsReply (D.form dialect.now) heard reply.now) (subject_of log.now boards.now agent) places.old places.new }
    ensures no { result ≡ false → IsStuck (λ item. item ≡ Asks (Ok (requests.Quote good))) (FitsReply (D.form dialect.now) heard reply.now) (subject_of log.now boards.now agent) places.old }
{
    let _goods = width(places);
    let row = usize::from(good.get());
    match first_shown(dialect, &boards[row], places.seen[row], heard, reply) {
        Some(count) => {
            places.seen[row] = count;
            true
        }
        None => false,
    }
}
