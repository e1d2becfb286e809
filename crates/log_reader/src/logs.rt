ghost use Rattle.std.specs.Prelude.{◌≡◌, Some, slice_get};
ghost use Rattle.log_reader.specs.Prelude.{IsHistory, head_of};
ghost use Rattle.log_text.specs.LoggedGames.{IsLogged, IsLoggedScore};

use crate::{LogHead, LogHistory, ScoreLine};
use std::marker::Model;
use tac_base::{Agent, Good};
use trade_ledger::CashEntry;

/// The contents of a game's log, in their ranges. Reading does not test whether the histories are legal, nor whether head and scores agree
/// with them. Contracts see a log as a `LoggedGame`.
#[derive(Debug, Drop)]
pub struct Log {
    /// How the game was played.
    pub head: LogHead,
    /// The histories of the goods 0..27, in order.
    pub histories: Vec<LogHistory>,
    /// The cash history, the oldest entry first: at most 238,048 entries. Each post's reply is `Done`; each reading is an agent's own.
    pub cash: Vec<CashEntry>,
    /// The scores of the agents 0..7, in order.
    pub scores: Vec<ScoreLine>,
}

impl Model for Log {
    ghost use Rattle.std.specs.Coded.{codes};
    ghost use Rattle.line_protocol.specs.Heads.{head_of};
    ghost use Rattle.bound_cert.specs.TreeCodes.{tree_code};
    ghost use Rattle.log_text.specs.LoggedGames.{LoggedGame, IsLogged};

    ghost Value = { LoggedGame };

    ghost coded = { Prim.hlevel (codes, tree_code) };

    ghost view = { λ l. record { head = head_of l.head; histories = l.histories.items; cash = l.cash.items; scores = l.scores.items } };

    ghost invariant = { λ l. IsLogged (record { head = head_of l.head; histories = l.histories.items; cash = l.cash.items; scores = l.scores.items }) };
}

impl Log {
    /// How the game was played.
    pub fn head(&self) -> &LogHead
        ensures value { head_of result.now ≡ self.now.head }
        // The whole log is in its ranges.
        ensures logged { IsLogged self.now }
    {
        &self.head
    }

    /// The history of a good.
    pub fn history(&self, good: Good) -> &LogHistory
        ensures value { slice_get self.now.histories good ≡ Some result.now }
        ensures logged { IsHistory good result.now }
    {
        &self.histories[usize::from(good.get())]
    }

    /// The cash history.
    pub fn cash(&self) -> &[CashEntry]
        ensures value { result.now ≡ self.now.cash }
        ensures whole { IsLogged self.now }
    {
        self.cash.as_slice()
    }

    /// The score of an agent.
    pub fn score(&self, agent: Agent) -> &ScoreLine
        ensures value { slice_get self.now.scores agent ≡ Some result.now }
        ensures logged { IsLoggedScore result.now }
        ensures whole { IsLogged self.now }
    {
        &self.scores[usize::from(agent.get())]
    }
}
