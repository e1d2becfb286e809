ghost use Rattle.std.specs.Prelude.{◌≡◌, ◌+◌, ◌<◌, ◌≤◌, ◌^◌, ◌++◌, [], ◌∷◌, length, vec_len, vec_capacity, slice_get, take, drop, option_copied};
ghost use Rattle.auction_core.specs.Stored.{entry_behind};

use tac_base::limits::ENTRY_TRADES;
use tac_base::{Call, Caller, Entry, Reply, Trade};

/// Returns the entry at a position, or `None` past the end.
pub(crate) fn entry_at(entries: &[Entry], position: u32) -> Option<&Entry>
    ensures { option_copied result ≡ slice_get entries.now position }
{
    entries.get(position as usize)
}

/// Returns `count` trades from index `first` on.
pub(crate) fn part_of(trades: &[Trade], first: usize, count: usize) -> &[Trade]
    requires { first + count ≤ length trades.now }
    ensures { result.now ≡ take count (drop first trades.now) }
{
    &trades[first..first + count]
}

/// Appends trades; the capacity must suffice.
fn append(trades: &mut Vec<Trade>, more: &[Trade])
    requires { vec_len trades.old + length more.now ≤ vec_capacity trades.old }
    ensures items { trades.new.items ≡ trades.old.items ++ more.now }
    ensures capacity { vec_capacity trades.new ≡ vec_capacity trades.old }
{
    for trade in more {
        trades.push_reserved(*trade);
    }
}

/// Stores an entry with its trades; the capacity must suffice.
pub(crate) fn store(
    entries: &mut Vec<Entry>,
    trades: &mut Vec<Trade>,
    caller: Caller,
    call: Call,
    reply: Reply,
    more: &[Trade],
)
    requires entry_room { vec_len entries.old < vec_capacity entries.old }
    requires trade_room { vec_len trades.old + length more.now ≤ vec_capacity trades.old }
    requires numbered { vec_len trades.old < 2 ^ 32 }
    requires few { length more.now ≤ ENTRY_TRADES }
    ensures entries { entries.new.items ≡ entries.old.items ++ entry_behind trades.old.items caller call reply more.now ∷ [] }
    ensures trades { trades.new.items ≡ trades.old.items ++ more.now }
    ensures entry_capacity { vec_capacity entries.new ≡ vec_capacity entries.old }
    ensures trade_capacity { vec_capacity trades.new ≡ vec_capacity trades.old }
{
    let entry = Entry {
        caller,
        call,
        reply,
        first_trade: trades.len() as u32,
        trades: more.len() as u8,
    };
    entries.push_reserved(entry);
    append(trades, more);
}
