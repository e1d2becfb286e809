// Keeps the games and the scores of each team.
ghost use Rattle.std.specs.Prelude.{◌≡◌, ◌<◌, ◌≤◌, ◌+◌, ◌*◌, ◌*ℤ◌, pos, OnOk, Some, unsigned_abs, count_by, length, slice_get, take, All};
ghost use Rattle.indexmap.specs.IndexMap.{values};
ghost use Rattle.tourney.specs.Standings as standings;
ghost use Rattle.tourney.specs.Tallies as spec;

use game_text::SeatWord;
use indexmap::IndexMap;
use tac_base::Memory;
use tac_base::limits::TABLE_GAMES;

/// The games and the scores of a team.
#[derive(Clone, Copy, Debug, PartialEq, Eq)]
pub(crate) struct Tally {
    /// The number of games in which the team counts.
    pub games: u8,
    /// The sum of its scores, in dollars.
    pub total: i64,
}

/// The tallies of the teams, in the order in which they first appear.
pub(crate) type Tallies = IndexMap<SeatWord, Tally>;

/// The tally of no games.
const NONE: Tally = Tally { games: 0, total: 0 };

/// A total times this many games.
fn scaled(total: i64, games: u8) -> i64
    requires total { unsigned_abs total ≤ TABLE_GAMES * spec.most_score }
    ensures { result ≡ total *ℤ pos games }
{
    total * i64::from(games)
}

impl Tally {
    /// The tally with one more game. A score is at most 10,000,000,000,000 dollars in absolute value.
    pub(crate) fn with_score(self, score: i64) -> Tally
        requires few { self.games < TABLE_GAMES }
        requires total { unsigned_abs self.total ≤ self.games * spec.most_score }
        requires score { unsigned_abs score ≤ spec.most_score }
        ensures { result ≡ spec.with_score self score }
    {
        Tally {
            games: self.games + 1,
            total: self.total + score,
        }
    }

    /// Whether the average of this tally is greater.
    pub(crate) fn is_above(self, other: Tally) -> bool
        requires this { spec.IsTally TABLE_GAMES self }
        requires that { spec.IsTally TABLE_GAMES other }
        ensures { result ≡ standings.is_above self.total self.games other.total other.games }
    {
        scaled(other.total, self.games) < scaled(self.total, other.games)
    }
}

/// The tally of a team, zero at first.
fn tally_at(tallies: &Tallies, word: &SeatWord) -> Tally
    ensures { result ≡ spec.tally_at tallies.now.entries word.now }
{
    match tallies.get(word) {
        Some(tally) => *tally,
        None => NONE,
    }
}

/// Adds a team's score of one more game.
pub(crate) fn add_score(tallies: &mut Tallies, word: SeatWord, score: i64) -> Result<(), Memory>
    requires few { (spec.tally_at tallies.old.entries word).games < TABLE_GAMES }
    requires each { All (λ team. spec.IsTally TABLE_GAMES team.1) tallies.old.entries }
    requires score { unsigned_abs score ≤ spec.most_score }
    ensures { OnOk result (tallies.new.entries ≡ spec.with_result tallies.old.entries (word, score)) }
{
    let tally = tally_at(tallies, &word).with_score(score);
    match tallies.insert(word, tally) {
        Ok(_) => Ok(()),
        Err(_) => Err(Memory),
    }
}

/// The tally of the team at a place.
pub(crate) fn tally_in(tallies: &Tallies, place: usize) -> Tally
    requires inside { place < length tallies.now.entries }
    requires each { All (λ team. spec.IsTally TABLE_GAMES team.1) tallies.now.entries }
    ensures value { slice_get (values tallies.now) place ≡ Some result }
    ensures range { spec.IsTally TABLE_GAMES result }
{
    tallies[place]
}

/// 1 if the team at a place has a greater average, and otherwise 0.
fn one_ahead(tallies: &Tallies, place: usize, tally: Tally) -> u16
    requires inside { place < length tallies.now.entries }
    requires each { All (λ team. spec.IsTally TABLE_GAMES team.1) tallies.now.entries }
    requires tally { spec.IsTally TABLE_GAMES tally }
    ensures counted { count_by (spec.is_over tally) (take (place + 1) (values tallies.now)) ≡ count_by (spec.is_over tally) (take place (values tallies.now)) + result }
    ensures few { result ≤ 1 }
{
    if tally_in(tallies, place).is_above(tally) {
        return 1;
    }
    0
}

/// 1 plus the number of teams with a greater average.
pub(crate) fn rank_of(tallies: &Tallies, tally: Tally) -> u16
    requires few { length tallies.now.entries ≤ 512 }
    requires each { All (λ team. spec.IsTally TABLE_GAMES team.1) tallies.now.entries }
    requires tally { spec.IsTally TABLE_GAMES tally }
    ensures { result ≡ spec.rank_in tallies.now.entries tally }
{
    let mut rank = 1;
    for place in 0..tallies.len() {
        rank += one_ahead(tallies, place, tally);
    }
    rank
}
