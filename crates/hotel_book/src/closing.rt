ghost use Rattle.std.specs.Prelude.{◌≡◌, ◌+◌, ◌<◌, ◌≤◌, ◌++◌, length, option_to_list};
ghost use Rattle.tac_base.specs.declared.limits.TheConstants.{ENTRY_TRADES};
ghost use Rattle.hotel_book.specs.Ranked.{won, last_price};
ghost use Rattle.hotel_book.specs.Book as spec;

use crate::ranking::Ranking;
use tac_base::{Agent, Fills, Good, Party, Trade};

/// Returns what an agent buys at the closing.
fn trade_of(good: Good, ranking: &Ranking, agent: Agent) -> Option<Trade>
    ensures { result ≡ spec.winner_trade good (last_price ranking.now.rooms ranking.now.units) (won ranking.now.rooms ranking.now.units) agent }
{
    let units = ranking.winning(agent);
    if units == 0 {
        None
    } else {
        Some(Trade {
            buyer: agent.party(),
            seller: Party::house(),
            good,
            units,
            price: ranking.ask(),
        })
    }
}

/// Appends the trade, if there is one.
fn push_trade(fills: &mut Fills, trade: Option<Trade>)
    requires { length fills.old < ENTRY_TRADES }
    ensures trades { fills.new ≡ fills.old ++ option_to_list trade }
    ensures few { length fills.new ≤ length fills.old + 1 }
{
    match trade {
        Some(trade) => fills.push(trade),
        None => {}
    }
}

/// Replaces `fills` with the trades of a closing.
pub(crate) fn fill(fills: &mut Fills, good: Good, ranking: &Ranking)
    ensures { fills.new ≡ spec.winner_trades good (last_price ranking.now.rooms ranking.now.units) (won ranking.now.rooms ranking.now.units) }
{
    fills.clear();
    for agent in Agent::all() {
        push_trade(fills, trade_of(good, ranking, agent));
    }
}
