// Averages as fractions.
ghost use Rattle.std.specs.Prelude.{◌≡◌, ◌≤◌, ◌<◌, ◌^◌, unsigned_abs};
ghost use Rattle.std.specs.Int.{IsGcd};
ghost use Rattle.tourney.specs.Rows as rows;
ghost use Rattle.tourney.specs.Rows.{IsAverage};

/// A fraction of dollars, in lowest terms.
#[derive(Clone, Copy, Debug, PartialEq, Eq)]
pub(crate) struct Average {
    pub over: i64,
    /// Greater than 0.
    pub under: u8,
}

/// The greatest common divisor of two numbers, by Euclid.
fn greatest_divisor(first: u64, second: u64) -> u64
    ensures { IsGcd first second result }
{
    let mut a = first;
    let mut b = second;
    while b != 0 {
        let rest = a % b;
        a = b;
        b = rest;
    }
    a
}

/// This many dollars with the sign of a total.
#[tactic(auto, using(crate::proofs::LowestTerms::signed_low, crate::proofs::LowestTerms::signed_high))]
fn signed(total: i64, dollars: u64) -> i64
    requires { dollars < 2 ^ 63 }
    ensures { result ≡ rows.signed total dollars }
{
    if total < 0 {
        return -(dollars as i64);
    }
    dollars as i64
}

/// A total divided by 1..255 games, in lowest terms.
pub(crate) fn lowest_terms(total: i64, games: u8) -> Average
    requires some { 1 ≤ games }
    requires fits { unsigned_abs total < 2 ^ 63 }
    ensures { IsAverage total games result.over result.under }
{
    let dollars = total.unsigned_abs();
    let divisor = greatest_divisor(dollars, u64::from(games));
    Average {
        over: signed(total, dollars / divisor),
        under: (u64::from(games) / divisor) as u8,
    }
}
