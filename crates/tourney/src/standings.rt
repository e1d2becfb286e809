// The standings.
ghost use Rattle.std.specs.Prelude.{◌≡◌, ◌<◌, ◌≤◌, ◌++◌, ◌∷◌, [], ◌+◌, List, OnOk, IfOk, slice_get, slice_index_or, length, map, pos, unsigned_abs, option_copied, All};
ghost use Rattle.tourney.specs.{GameFile, LoggedGame, IsSound, AreStandingsOf};
ghost use Rattle.tourney.specs.Standings as standings;
ghost use Rattle.tourney.specs.Rows as rows;
ghost use Rattle.tourney.specs.Tallies as spec;

use crate::TeamRow;
use crate::averages::{Average, lowest_terms};
use crate::counting::counts;
use crate::tallies::{Tallies, add_score, rank_of, tally_in};
use game_text::{Game, SeatWord};
use indexmap::IndexMap;
use log_reader::Log;
use std::alloc::Global;
use std::marker::Model;
use tac_base::limits::TABLE_GAMES;
use tac_base::{Agent, Memory};

/// The standings of the teams of at most 64 games. A team is a seat's word.
#[derive(Drop)]
pub struct Standings {
    alloc: Global,
    tallies: Tallies,
    games: u8,
}

impl Model for Standings {
    ghost use Rattle.std.specs.Prelude.{◌≤◌};
    ghost use Rattle.tac_base.specs.declared.limits.TheConstants.{TABLE_GAMES};
    ghost use Rattle.tourney.specs.Tallies.{Kept, AreTallies};

    ghost Value = { Kept };

    ghost view = { λ s. record { tallies = s.tallies.entries; games = s.games } };

    ghost invariant = { λ s. AreTallies s.tallies.entries s.games × (s.games ≤ TABLE_GAMES) };
}

/// The word of an agent's seat.
fn word_of(game: &Game, agent: Agent) -> SeatWord
    ensures { result ≡ slice_index_or game.now.words agent [] }
{
    game.words[usize::from(agent.get())]
}

/// The score of an agent, at most 10,000,000,000,000 dollars in absolute value.
fn score_of(game: &Game, log: &Log, agent: Agent) -> i64
    requires { IsSound game.now log.now }
    ensures value { result ≡ slice_index_or (map (λ scored. scored.score) log.now.scores) agent (pos 0) }
    ensures small { unsigned_abs result ≤ spec.most_score }
{
    let _words = &game.words;
    log.score(agent).score
}

/// Adds the score of an agent, if the agent counts in the game.
fn add_agent(tallies: &mut Tallies, game: &Game, log: &Log, agent: Agent) -> Result<(), Memory>
    requires sound { IsSound game.now log.now }
    requires few { (spec.tally_at tallies.old.entries (standings.result_of (game.now, log.now) agent).0).games < TABLE_GAMES }
    requires each { All (λ team. spec.IsTally TABLE_GAMES team.1) tallies.old.entries }
    ensures { OnOk result (tallies.new.entries ≡ spec.with_results tallies.old.entries (spec.result_if_counts (game.now, log.now) agent)) }
{
    if counts(log.head(), agent) {
        add_score(tallies, word_of(game, agent), score_of(game, log, agent))
    } else {
        Ok(())
    }
}

impl Standings {
    /// The standings of no games. They use no memory.
    pub fn begin(alloc: Global) -> Standings
        ensures stands { AreStandingsOf result [] }
        ensures games { result.games ≡ 0 }
    {
        Standings {
            alloc,
            tallies: IndexMap::new(alloc),
            games: 0,
        }
    }

    /// Adds a game to the standings of fewer than 64 games. After `Memory` the standings are dropped.
    pub fn add(self, game: &Game, log: &Log) -> Result<Standings, Memory>
        requires sound { IsSound game.now log.now }
        requires few { self.games < TABLE_GAMES }
        ensures stands { (played : List (GameFile × LoggedGame)) → AreStandingsOf self played → IfOk result (λ after. AreStandingsOf after (played ++ (game.now, log.now) ∷ [])) }
        ensures games { IfOk result (λ after. after.games ≡ self.games + 1) }
    {
        let Standings {
            alloc,
            mut tallies,
            games,
        } = self;
        // The words differ, and the log is in its ranges: both are known once they are read.
        let _words = &game.words;
        let _head = log.head();
        for agent in Agent::all() {
            add_agent(&mut tallies, game, log, agent)?;
        }
        Ok(Standings {
            alloc,
            tallies,
            games: games + 1,
        })
    }

    /// The number of games, 0..64.
    pub fn games(&self) -> u8
        ensures stands { (played : List (GameFile × LoggedGame)) → AreStandingsOf self.now played → result ≡ length played }
        ensures few { result ≤ TABLE_GAMES }
        ensures kept { result ≡ self.now.games }
    {
        self.games
    }

    /// The row of the team at a place.
    #[tactic(auto, using(crate::proofs::Ranges::all_ranged))]
    fn row(&self, place: usize) -> TeamRow
        requires { place < length self.now.tallies }
        ensures { spec.IsRowAt self.now.tallies place result }
    {
        let tally = tally_in(&self.tallies, place);
        let Average { over, under } = lowest_terms(tally.total, tally.games);
        TeamRow {
            team: place as u16,
            games: tally.games,
            total: tally.total,
            over,
            under,
            rank: rank_of(&self.tallies, tally),
        }
    }

    /// Appends the row of the team at a place. After `Memory` the rows are as they were.
    #[tactic(auto, using(crate::proofs::TeamRows::rows_more))]
    fn push_row(&self, place: usize, rows: &mut Vec<TeamRow>) -> Result<(), Memory>
        requires inside { place < length self.now.tallies }
        requires earlier { spec.AreRowsBelow self.now.tallies place rows.old.items }
        ensures { OnOk result (spec.AreRowsBelow self.now.tallies (place + 1) rows.new.items) }
    {
        rows.push(self.row(place)).map_err(|_| Memory)
    }

    /// The row of each team, in the order in which the teams first appear. After `Memory` it returns none.
    pub fn rows(&self) -> Result<Vec<TeamRow>, Memory>
        ensures { (played : List (GameFile × LoggedGame)) → AreStandingsOf self.now played → IfOk result (λ teams. rows.AreRows played teams.items) }
    {
        let mut rows = Vec::new(self.alloc);
        for place in 0..self.tallies.len() {
            self.push_row(place, &mut rows)?;
        }
        Ok(rows)
    }

    /// The word of the team at a place; None exactly past the last one.
    pub fn word(&self, team: u16) -> Option<&[u8]>
        ensures { (played : List (GameFile × LoggedGame)) → AreStandingsOf self.now played → option_copied result ≡ slice_get (standings.teams played) team }
    {
        match self.tallies.get_index(usize::from(team)) {
            Some((word, _)) => Some(word.as_slice()),
            None => None,
        }
    }
}
