// The tableau of the simplex.
ghost use Rattle.std.specs.Prelude.{◌<◌, IfSome};
ghost use Rattle.packages.specs.Packages.{IsPackage};

use crate::columns::{
    ClientPackage, Entering, GOOD_ROWS, GoodRow, ROWS, SimplexColumn, row_of_good,
};
use packages::Package;
use tac_base::Good;
use tac_base::limits::DUAL_PRICE;

/// Smaller differences count as rounding errors.
pub(crate) const TOLERANCE: f64 = 0.0000001;

/// No basic variable leaves at this ratio or a greater one.
const GREATEST_RATIO: f64 = 1000000.0;

/// The index of the right-hand side in a row, after an entry for each row of the linear program.
pub(crate) const AMOUNT: usize = ROWS;

/// The number of entries in a row.
pub(crate) const WIDTH: usize = ROWS + 1;

/// A row of the tableau.
pub(crate) type Row = [f64; WIDTH];

/// A basis with its inverse.
#[derive(Clone, Copy)]
pub(crate) struct Tableau {
    /// The rows of the inverse, each with the amount of its basic variable last.
    pub(crate) rows: [Row; ROWS],
    /// The dual prices: those of the goods, then for each client its gain, and last the value.
    pub(crate) prices: Row,
    /// The basic variable of each row.
    pub(crate) basis: [SimplexColumn; ROWS],
}

impl Tableau {
    /// Returns a tableau without a basis.
    pub(crate) fn nothing() -> Tableau {
        Tableau {
            rows: [[0.0; WIDTH]; ROWS],
            prices: [0.0; WIDTH],
            basis: [SimplexColumn::Slack(GoodRow { good: 0 }); ROWS],
        }
    }

    /// Sets the slack basis in a tableau without a basis: all goods are left over, as many as `stock` says, and each client stays at
    /// home. If eight clients cannot use up the stock of a good, one unit more than they can use is as good as any stock, and the good has no
    /// price. A good without stock has the greatest price, and nobody wants it.
    pub(crate) fn begin(&mut self, stock: &[f64; 28]) {
        for good in 0..GOOD_ROWS {
            self.rows[good][good] = 1.0;
            self.rows[good][AMOUNT] = stock[good].min(9.0);
            self.prices[good] = first_price(stock[good]);
            self.basis[good] = SimplexColumn::Slack(GoodRow { good });
        }
        for client in 0..8 {
            self.rows[GOOD_ROWS + client][GOOD_ROWS + client] = 1.0;
            self.rows[GOOD_ROWS + client][AMOUNT] = 1.0;
            self.basis[GOOD_ROWS + client] = SimplexColumn::Share(ClientPackage {
                client,
                number: 0,
            });
        }
    }

    /// Returns what the basic variables are worth together, in dollars.
    pub(crate) fn value(&self) -> f64 {
        self.prices[AMOUNT]
    }

    /// Returns the pivot column: what one more unit of a column takes from each basic variable.
    pub(crate) fn pivot_column(&self, column: &SimplexColumn) -> [f64; ROWS] {
        let mut entries = [0.0; ROWS];
        match column {
            SimplexColumn::Slack(of) => {
                for row in 0..ROWS {
                    entries[row] = self.rows[row][of.good];
                }
            }
            SimplexColumn::Surplus(of) => {
                for row in 0..ROWS {
                    entries[row] = -self.rows[row][of.good];
                }
            }
            SimplexColumn::Share(of) => {
                let package = of.package();
                for row in 0..ROWS {
                    entries[row] = share_entry(&self.rows[row], of.client, &package);
                }
            }
        }
        entries
    }

    /// The ratio test: returns the row whose basic variable is used up first as a column enters; of several, the first one, or in idle steps
    /// the one whose variable comes first in the order of columns.
    pub(crate) fn leaving(&self, pivot_column: &[f64; ROWS], is_idle: bool) -> Option<usize>
        ensures { IfSome result (λ row. row < ROWS) }
    {
        let mut first = None;
        let mut least = GREATEST_RATIO;
        let mut order = 0;
        for row in 0..ROWS {
            if pivot_column[row] > TOLERANCE {
                let ratio = self.rows[row][AMOUNT] / pivot_column[row];
                let other = self.basis[row].order();
                if ratio < least - TOLERANCE
                    || (is_idle && ratio < least + TOLERANCE && other < order)
                {
                    least = ratio;
                    order = other;
                    first = Some(row);
                }
            }
        }
        first
    }

    /// Pivots: makes the column the basic variable of the leaving row.
    pub(crate) fn pivot(&mut self, entering: &Entering, pivot_column: &[f64; ROWS], leaving: usize)
        requires { leaving < ROWS }
    {
        scale(&mut self.rows[leaving], pivot_column[leaving]);
        let pivot_row = self.rows[leaving];
        for row in 0..ROWS {
            if row != leaving {
                subtract(&mut self.rows[row], &pivot_row, pivot_column[row]);
            }
        }
        subtract(&mut self.prices, &pivot_row, -entering.reduced_cost);
        self.basis[leaving] = entering.column;
    }
}

/// Returns the first price of a good with this stock.
fn first_price(stock: f64) -> f64 {
    if stock < 0.5 {
        f64::from(DUAL_PRICE)
    } else {
        0.0
    }
}

/// Returns the entry of a row in the column of a client's package.
fn share_entry(row: &Row, client: usize, package: &Package) -> f64
    requires client { client < 8 }
    requires lawful { IsPackage «package».now }
{
    let mut sum = row[GOOD_ROWS + client];
    if let Package::Trip {
        hotel,
        arrive,
        depart,
        nights,
    } = package
    {
        sum += row[row_of_good(Good::inbound_flight(*arrive))];
        sum += row[row_of_good(Good::outbound_flight(*depart))];
        for night in *arrive..*depart {
            sum += row[row_of_good(Good::hotel_night(*hotel, night))];
        }
        for kind in 0..3 {
            let night = nights[usize::from(kind)];
            if night > 0 {
                sum += row[row_of_good(Good::ticket_night(kind, night))];
            }
        }
    }
    sum
}

/// Divides a row by a number that is not 0.
fn scale(row: &mut Row, by: f64) {
    for place in 0..WIDTH {
        row[place] /= by;
    }
}

/// Subtracts a multiple of a row from another one.
fn subtract(row: &mut Row, other: &Row, times: f64) {
    if times != 0.0 {
        for place in 0..WIDTH {
            row[place] -= times * other[place];
        }
    }
}
