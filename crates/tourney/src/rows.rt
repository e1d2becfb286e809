// A row of the standings for each team.

/// What the standings say about a team. This project defines ranks and averages.
#[derive(Clone, Copy, Debug, PartialEq, Eq)]
pub struct TeamRow {
    /// The team's place among the teams in the order in which they first appear, from 0.
    pub team: u16,
    /// The number of games in which it counts.
    pub games: u8,
    /// The sum of its scores, in dollars.
    pub total: i64,
    /// Its average, `over / under` dollars per game, in lowest terms.
    pub over: i64,
    /// Greater than 0.
    pub under: u8,
    /// 1 plus the number of teams with a greater average.
    pub rank: u16,
}
