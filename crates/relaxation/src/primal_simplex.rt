// The primal simplex, which generates columns of packages on demand.
ghost use Rattle.std.specs.Prelude.{◌≡◌, ◌<◌, length};

use crate::charges::charge;
use crate::columns::{ClientPackage, Entering, GOOD_ROWS, GoodRow, SimplexColumn};
use crate::tableau::{Row, TOLERANCE, Tableau};
use crate::worth_table::WorthTable;
use tac_base::limits::{DUAL_PRICE, GOODS};

/// The most columns that enter.
const MOST_STEPS: u32 = 2000;

/// After this many consecutive steps without gain, the first column that gains enters.
const MOST_IDLE: u32 = 100;

/// The lowest and the highest price of each good, in dollars.
#[derive(Clone, Copy)]
pub(crate) struct Limits {
    pub(crate) low: [f64; 28],
    pub(crate) high: [f64; 28],
}

impl Limits {
    /// Returns the limits of all prices.
    pub(crate) fn none() -> Limits {
        Limits {
            low: [0.0; 28],
            high: [f64::from(DUAL_PRICE); 28],
        }
    }
}

impl Tableau {
    /// Finds the shares that are worth most together, as far as a bounded number of steps allows. Slack at the lower limit of a price and
    /// surplus at the upper limit keep the price between them. After many steps without gain the first column that gains enters, so that
    /// the simplex cannot cycle.
    pub(crate) fn solve(&mut self, worths: &WorthTable, limits: &Limits) {
        let mut turn = 0;
        let mut idle = 0;
        for _step in 0..MOST_STEPS {
            let is_idle = idle >= MOST_IDLE;
            let found = if is_idle {
                self.first_entering(worths, limits)
            } else {
                self.entering(worths, limits, turn)
            };
            let Some(entering) = found else {
                return;
            };
            let pivot_column = self.pivot_column(&entering.column);
            let Some(leaving) = self.leaving(&pivot_column, is_idle) else {
                return;
            };
            let before = self.value();
            self.pivot(&entering, &pivot_column, leaving);
            turn = after(turn, &entering.column);
            idle = if self.value() > before + TOLERANCE {
                0
            } else {
                idle + 1
            };
        }
    }

    /// Returns the first column with a reduced cost above 0: for a good whose price is beyond its limits, or for a client's package.
    fn first_entering(&self, worths: &WorthTable, limits: &Limits) -> Option<Entering> {
        for good in 0..GOOD_ROWS {
            let entering = beyond(&self.prices, limits, good);
            if entering.reduced_cost > TOLERANCE {
                return Some(entering);
            }
        }
        let mut charges = [0.0; 393];
        charge(&mut charges, &worths.features, &self.prices);
        for client in 0..8 {
            let gained = self.prices[GOOD_ROWS + client];
            let worths = worths.row(client);
            for number in 0..393 {
                let reduced_cost = f64::from(worths[number]) - charges[number] - gained;
                if reduced_cost > TOLERANCE {
                    return Some(Entering {
                        column: SimplexColumn::Share(ClientPackage { client, number }),
                        reduced_cost,
                    });
                }
            }
        }
        None
    }

    /// Returns a column with a reduced cost above 0: for the good whose price is furthest beyond its limits, or for the best package of the
    /// first client, from client `turn` on, for which one is above 0.
    fn entering(&self, worths: &WorthTable, limits: &Limits, turn: usize) -> Option<Entering>
        requires { turn < 8 }
    {
        let good = furthest_beyond(&self.prices, limits);
        if good.reduced_cost > TOLERANCE {
            return Some(good);
        }
        let mut charges = [0.0; 393];
        charge(&mut charges, &worths.features, &self.prices);
        for step in 0..8 {
            let client = (turn + step) % 8;
            let found = self.entering_of(worths, client, &charges);
            if found.is_some() {
                return found;
            }
        }
        None
    }

    /// Returns the package of a client, 0..7, with the greatest reduced cost, if it is above 0.
    fn entering_of(
        &self,
        worths: &WorthTable,
        client: usize,
        charges: &[f64; 393],
    ) -> Option<Entering>
        requires { client < 8 }
    {
        let gained = self.prices[GOOD_ROWS + client];
        let (number, most) = best_package(worths.row(client), charges);
        if most - gained > TOLERANCE {
            Some(Entering {
                column: SimplexColumn::Share(ClientPackage { client, number }),
                reduced_cost: most - gained,
            })
        } else {
            None
        }
    }
}

/// Returns the client to test first after a column has entered: the one after the column's client.
fn after(turn: usize, column: &SimplexColumn) -> usize
    requires { turn < 8 }
    ensures { result < 8 }
{
    match column {
        SimplexColumn::Share(of) => (of.client + 1) % 8,
        _ => turn,
    }
}

/// Returns the slack or the surplus of a good, 0..27, whichever keeps its price to the nearer limit; the reduced cost is below 0 if the
/// price is within the limits.
fn beyond(prices: &Row, limits: &Limits, good: usize) -> Entering
    requires { good < GOODS }
{
    let below = limits.low[good] - prices[good];
    let above = prices[good] - limits.high[good];
    if below >= above {
        Entering {
            column: SimplexColumn::Slack(GoodRow { good }),
            reduced_cost: below,
        }
    } else {
        Entering {
            column: SimplexColumn::Surplus(GoodRow { good }),
            reduced_cost: above,
        }
    }
}

/// Returns the slack or the surplus of the good whose price is furthest beyond its limits, or nearest to them.
fn furthest_beyond(prices: &Row, limits: &Limits) -> Entering {
    let mut most = beyond(prices, limits, 0);
    for good in 1..GOOD_ROWS {
        let other = beyond(prices, limits, good);
        if other.reduced_cost > most.reduced_cost {
            most = other;
        }
    }
    most
}

/// Returns the package that is worth most beyond its charge, and by how much.
pub(crate) fn best_package(worths: &[i32], charges: &[f64; 393]) -> (usize, f64)
    requires { length worths.now ≡ 393 }
    ensures { result.0 < 393 }
{
    let mut best = 0;
    let mut most = f64::from(worths[0]) - charges[0];
    for number in 1..393 {
        let margin = f64::from(worths[number]) - charges[number];
        if margin > most {
            most = margin;
            best = number;
        }
    }
    (best, most)
}
