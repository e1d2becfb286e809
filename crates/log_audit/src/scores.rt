// Compares the scores of a log with what the histories leave to each agent.
ghost use Rattle.std.specs.Prelude.{◌≡◌, ◌<◌, ◌↔◌, IsTrue};
ghost use Rattle.settlement.specs.Score as rules;
ghost use Rattle.log_audit.specs.{settlement_of, IsDueScore, IsLogged, IsLoggedScore, auctions_in, HasDueScore, IsLowest};
ghost use Rattle.bound_cert.specs.Solutions.{IsSolution};

use bound_cert::check;
use game_text::{Account, Game};
use log_reader::{Log, ScoreLine};
use packages::{allocation_worth, is_enough};
use settlement::{Accounts, short};
use tac_base::Agent;

/// The score that the numbers of a line give.
fn reckoned(line: &ScoreLine) -> i64
    requires { IsLoggedScore line.now }
    ensures { result ≡ rules.score_of line.now.best line.now.cash line.now.short }
{
    i64::from(line.best) + line.cash - 200 * i64::from(line.short)
}

/// Whether a score has this cash and this many tickets short, and is computed from its own numbers.
fn is_reckoned(line: &ScoreLine, cash: i64, short: u32) -> bool
    requires { IsLoggedScore line.now }
    ensures { IsTrue result ↔ ((line.now.cash ≡ cash) × (line.now.short ≡ short) × (line.now.score ≡ rules.score_of line.now.best line.now.cash line.now.short)) }
{
    line.cash == cash && line.short == short && line.score == reckoned(line)
}

/// Whether the packages of a score are feasible for the account and are worth its best total, and the certificate holds for it.
fn is_best(account: &Account, line: &ScoreLine) -> bool
    requires { IsLoggedScore line.now }
    ensures { IsTrue result ↔ IsSolution account.now line.now.best line.now.allocation line.now.tree }
{
    is_enough(account, &line.allocation)
        && allocation_worth(account, &line.allocation) == line.best
        && check(account, line.best, &line.cert)
}

/// Whether a score is the one due to an agent.
fn is_due(game: &Game, accounts: &Accounts, agent: Agent, line: &ScoreLine) -> bool
    requires { IsLoggedScore line.now }
    ensures { IsTrue result ↔ IsDueScore game.now accounts.now agent line.now }
{
    let number = usize::from(agent.get());
    let account = Account {
        clients: game.clients[number],
        holdings: accounts.holdings[number],
    };
    is_reckoned(line, accounts.cash[number], short(&account.holdings)) && is_best(&account, line)
}

/// The lowest agent whose score is not the one due to it, if any.
pub(crate) fn false_score(game: &Game, log: &Log, accounts: &Accounts) -> Option<Agent>
    requires logged { IsLogged log.now }
    requires accounts { accounts.now ≡ settlement_of (auctions_in game.now log.now) }
    ensures { IsLowest (HasDueScore game.now log.now) result }
{
    for agent in Agent::all() {
        if !is_due(game, accounts, agent, log.score(agent)) {
            return Some(agent);
        }
    }
    None
}
