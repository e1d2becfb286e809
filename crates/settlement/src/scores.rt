// The score of an agent, and the sheet of all scores.
ghost use Rattle.std.specs.Prelude.{◌≡◌, ◌≤◌, ◌*◌, unsigned_abs, length, sum_by, All};
ghost use Rattle.settlement.specs.{HOLDING, IsHolding, AreHoldings};
ghost use Rattle.settlement.specs.Score as rules;

use bound_cert::Solved;
use std::marker::Model;
use tac_base::limits::GOODS;

/// The score of an agent with its parts.
#[derive(Debug, Drop)]
pub struct AgentScore {
    /// The most that the agent's goods are worth to its clients, in dollars: 0..14000 if `sheet` computed it.
    pub best: u32,
    /// Its cash, earned less paid, in dollars: at most 1000000000000000, gained or lost, if `sheet` computed it.
    pub cash: i64,
    /// How many tickets it is short, over all goods 16..27: 0..2400000 if `sheet` computed it.
    pub short: u32,
    /// The best total plus the cash, less 200 dollars for each ticket short. The penalty follows TAC.
    pub score: i64,
    /// A best allocation, with its certificate. Its total is the best total.
    pub solved: Solved,
}

impl Model for AgentScore {
    ghost use Rattle.std.specs.Prelude.{◌≡◌};
    ghost use Rattle.bound_cert.specs.Views.{tree_of};
    ghost use Rattle.std.specs.Coded.{codes};
    ghost use Rattle.settlement.specs.Sheets.{Scored};
    ghost use Rattle.bound_cert.specs.TreeCodes.{tree_code};

    ghost Value = { Scored };

    ghost coded = { Prim.hlevel (codes, tree_code) };

    ghost view = { λ a. record {
      best = a.best;
      cash = a.cash;
      short = a.short;
      score = a.score;
      allocation = a.solved.allocation;
      tree = tree_of a.solved.cert.root;
    } };

    ghost invariant = { λ a. a.best ≡ a.solved.total };
}

/// The scores of the eight agents, in their order.
#[derive(Debug, Drop)]
pub struct Sheet {
    pub agents: Vec<AgentScore>,
}

impl Model for Sheet {
    ghost use Rattle.std.specs.Prelude.{◌≡◌, List, length};
    ghost use Rattle.std.specs.Coded.{codes};
    ghost use Rattle.settlement.specs.Sheets.{Scored};
    ghost use Rattle.bound_cert.specs.TreeCodes.{tree_code};

    ghost Value = { List Scored };

    ghost coded = { Prim.hlevel (codes, tree_code) };

    ghost view = { λ s. s.agents.items };

    ghost invariant = { λ s. length s.agents.items ≡ 8 };
}

/// Returns by how many units a holding is below 0.
fn lacking(holding: i32) -> u32
    ensures { result ≡ rules.lacking holding }
{
    if holding < 0 {
        holding.unsigned_abs()
    } else {
        0
    }
}

/// Returns by how many units all these holdings together are below 0.
fn all_lacking(holdings: &[i32]) -> u32
    requires few { length holdings.now ≤ 28 }
    requires range { All IsHolding holdings.now }
    ensures value { result ≡ sum_by rules.lacking holdings.now }
    ensures bound { result ≤ GOODS * unsigned_abs HOLDING }
{
    let mut units = 0;
    for holding in holdings {
        units += lacking(*holding);
    }
    units
}

/// Returns how many tickets an agent with these holdings of the 28 goods is short.
pub fn short(holdings: &[i32]) -> u32
    requires { AreHoldings holdings.now }
    ensures value { result ≡ rules.short_of holdings.now }
    ensures bound { result ≤ GOODS * unsigned_abs HOLDING }
{
    all_lacking(&holdings[16..])
}
