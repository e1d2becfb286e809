// Computes the score of each agent.
ghost use Rattle.std.specs.Prelude.{◌≡◌, ◌<◌, ◌≤◌, ◌*◌, pos, unsigned_abs, slice_index_or, IfOk};
ghost use Rattle.tac_base.specs.declared.limits.TheConstants.{HOLDING};
ghost use Rattle.trade_ledger.specs.CashKeeping.{IsWithin};
ghost use Rattle.settlement.specs.Score as rules;
ghost use Rattle.settlement.specs.Sheets.{agents_account, IsDueScore};

use allocator::solve;
use game_text::{Account, Game};
use settlement::{Accounts, AgentScore, short};
use std::alloc::Global;
use tac_base::Memory;
use tac_base::limits::{AGENTS, GOODS};

/// The account of an agent, 0..7.
fn account(game: &Game, accounts: &Accounts, agent: usize) -> Account
    requires { agent < AGENTS }
    ensures { result ≡ agents_account game.now accounts.now agent }
{
    Account {
        clients: game.clients[agent],
        holdings: accounts.holdings[agent],
    }
}

/// The cash of an agent, 0..7.
fn cash(accounts: &Accounts, agent: usize) -> i64
    requires { agent < AGENTS }
    ensures value { result ≡ slice_index_or accounts.now.cash agent (pos 0) }
    ensures bound { IsWithin 1000000000000000 result }
{
    accounts.cash[agent]
}

/// The score of an agent with this best total, this cash, and this many tickets short.
fn score(best: u32, cash: i64, short: u32) -> i64
    requires cash { IsWithin 1000000000000000 cash }
    requires short { short ≤ GOODS * unsigned_abs HOLDING }
    ensures { result ≡ rules.score_of best cash short }
{
    i64::from(best) + cash - 200 * i64::from(short)
}

/// Computes the score of an agent, 0..7.
pub(crate) fn score_agent(
    alloc: Global,
    game: &Game,
    accounts: &Accounts,
    agent: usize,
) -> Result<AgentScore, Memory>
    requires { agent < AGENTS }
    ensures { IfOk result (IsDueScore game.now accounts.now agent) }
{
    let account = account(game, accounts, agent);
    let solved = solve(alloc, &account)?;
    let best = solved.total;
    let cash = cash(accounts, agent);
    let short = short(&account.holdings);
    Ok(AgentScore {
        best,
        cash,
        short,
        score: score(best, cash, short),
        solved,
    })
}
