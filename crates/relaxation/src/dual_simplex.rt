// The dual simplex: pivots out the basic variables whose amounts are infeasible.
ghost use Rattle.std.specs.Prelude.{◌<◌};
ghost use Rattle.relaxation.specs.declared.columns.TheConstants.{ROWS};

use crate::charges::charge;
use crate::columns::{ClientPackage, Entering, GOOD_ROWS, GoodRow, ROWS, SimplexColumn};
use crate::rounding::best_margin;
use crate::tableau::{AMOUNT, Row, TOLERANCE, Tableau, WIDTH};
use crate::worth_table::WorthTable;

/// Dual steps stop at this margin below a total, in dollars, so that the prices mostly still bound what is left by the total after they
/// are rounded down to whole dollars.
const MARGIN: f64 = 4.0;

/// A row whose basic variable is infeasible: its amount is below 0 (sign -1), or it is an excluded package's and above 0 (sign 1).
#[derive(Clone, Copy)]
pub(crate) struct Infeasible {
    row: usize,
    sign: f64,
    ghost is_row: { row < ROWS },
}

/// The direction in which a dual step moves the prices.
#[derive(Drop)]
struct Direction {
    /// The infeasible row, times its sign.
    row: Row,
    /// By how much a step of one lowers the charge of each package.
    falls: [f64; 393],
}

impl Tableau {
    /// Pivots out excluded packages in at most `steps` dual simplex steps, as long as what is left may be worth more than a total. After each
    /// step the prices bound what is left, except for rounding errors.
    pub(crate) fn repair(&mut self, worths: &WorthTable, total: f64, steps: u32) {
        let mut charges = [0.0; 393];
        charge(&mut charges, &worths.features, &self.prices);
        for _ in 0..steps {
            let Some(infeasible) = self.infeasible(worths) else {
                return;
            };
            let dollars = self.value() - total + MARGIN;
            if !self.dual_step(worths, &infeasible, dollars, &mut charges) {
                return;
            }
        }
    }

    /// Returns the row whose basic variable is furthest from a feasible amount, if there is one.
    pub(crate) fn infeasible(&self, worths: &WorthTable) -> Option<Infeasible> {
        let mut found = None;
        let mut most = TOLERANCE;
        for row in 0..ROWS {
            let amount = self.rows[row][AMOUNT];
            if -amount > most {
                most = -amount;
                found = Some(Infeasible { row, sign: -1.0 });
            } else if amount > most && self.is_excluded(worths, row) {
                most = amount;
                found = Some(Infeasible { row, sign: 1.0 });
            }
        }
        found
    }

    /// Returns whether the basic variable of a row is the share of an excluded package.
    fn is_excluded(&self, worths: &WorthTable, row: usize) -> bool
        requires { row < ROWS }
    {
        match &self.basis[row] {
            SimplexColumn::Share(of) => worths.is_excluded(of),
            _ => false,
        }
    }

    /// Makes a dual simplex step: the column that costs least replaces the basic variable of an infeasible row. Returns whether one did.
    /// If no column costs less than `dollars` in all, only the prices move, by these dollars. The charges of packages move
    /// with the prices.
    fn dual_step(
        &mut self,
        worths: &WorthTable,
        infeasible: &Infeasible,
        dollars: f64,
        charges: &mut [f64; 393],
    ) -> bool {
        let mut row = [0.0; WIDTH];
        add(&mut row, &self.rows[infeasible.row], infeasible.sign);
        let mut direction = Direction {
            row,
            falls: [0.0; 393],
        };
        charge(&mut direction.falls, &worths.features, &row);
        let most = dollars / direction.row[AMOUNT];
        if !(most > 0.0) {
            return false;
        }
        let Some(entering) = self.dual_entering(worths, &direction, charges, most) else {
            add(&mut self.prices, &direction.row, -most);
            return false;
        };
        let pivot_column = self.pivot_column(&entering.column);
        let pivot = pivot_column[infeasible.row];
        if pivot.abs() < TOLERANCE {
            return false;
        }
        let far = -entering.reduced_cost * infeasible.sign / pivot;
        lower(charges, &direction, far);
        self.pivot(&entering, &pivot_column, infeasible.row);
        true
    }

    /// The ratio test of the dual simplex: returns the nonbasic column whose reduced cost reaches 0 first as the prices move, if one does
    /// within the limit of the move. `charges` are those of the packages before the move.
    fn dual_entering(
        &self,
        worths: &WorthTable,
        direction: &Direction,
        charges: &[f64; 393],
        most: f64,
    ) -> Option<Entering> {
        let (mut found, far) = entering_slack(&self.prices, direction, most);
        let mut after = *charges;
        lower(&mut after, direction, far);
        let mut least = far;
        for client in 0..8 {
            let gained = self.prices[GOOD_ROWS + client] - far * direction.row[GOOD_ROWS + client];
            if best_margin(worths.row(client), &after) > gained + TOLERANCE {
                let (entering, far) = self.entering_share(
                    worths, direction, charges, client, least,
                );
                if far < least {
                    least = far;
                    found = Some(entering);
                }
            }
        }
        found
    }

    /// Returns the share of a client, 0..7, whose reduced cost reaches 0 first as the prices move within the limit, and how far that is.
    fn entering_share(
        &self,
        worths: &WorthTable,
        direction: &Direction,
        charges: &[f64; 393],
        client: usize,
        most: f64,
    ) -> (Entering, f64)
        requires { client < 8 }
    {
        let worths = worths.row(client);
        let gained = self.prices[GOOD_ROWS + client];
        let taken = direction.row[GOOD_ROWS + client];
        let mut first = 0;
        let mut reduced_cost = 0.0;
        let mut least = most;
        for number in 0..393 {
            let entry = direction.falls[number] + taken;
            let other = f64::from(worths[number]) - charges[number] - gained;
            if entry > TOLERANCE && -other < least * entry {
                first = number;
                reduced_cost = other;
                least = -other / entry;
            }
        }
        (
            Entering {
                column: SimplexColumn::Share(ClientPackage {
                    client,
                    number: first,
                }),
                reduced_cost,
            },
            least,
        )
    }
}

/// Lowers the charge of each package by as much as it falls when the prices move by `far`.
fn lower(charges: &mut [f64; 393], direction: &Direction, far: f64) {
    for number in 0..393 {
        charges[number] -= far * direction.falls[number];
    }
}

/// Returns the slack whose reduced cost reaches 0 first as the prices move, if one does within the limit, and how far that is.
fn entering_slack(prices: &Row, direction: &Direction, most: f64) -> (Option<Entering>, f64) {
    let mut found = None;
    let mut least = most;
    for good in 0..GOOD_ROWS {
        let entry = direction.row[good];
        if entry > TOLERANCE && prices[good] < least * entry {
            least = prices[good] / entry;
            found = Some(Entering {
                column: SimplexColumn::Slack(GoodRow { good }),
                reduced_cost: -prices[good],
            });
        }
    }
    (found, least)
}

/// Adds a multiple of a row to another one.
fn add(row: &mut Row, other: &Row, times: f64) {
    for place in 0..WIDTH {
        row[place] += times * other[place];
    }
}
