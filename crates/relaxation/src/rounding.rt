// Whole prices near those of the relaxation.
ghost use Rattle.std.specs.Prelude.{◌≡◌, ◌<◌, ◌≤◌, length, IfSome};
ghost use Rattle.packages.specs.Prices.{ArePrices};

use crate::charges::charge;
use crate::primal_simplex::Limits;
use crate::relaxing::Relaxation;
use crate::tableau::{Row, TOLERANCE, Tableau, WIDTH};
use crate::worth_table::WorthTable;
use packages::Prices;
use std::num::saturating_f64_to_u16;
use tac_base::limits::{DUAL_PRICE, GOODS};

/// One more than the number of prices that can be fixed at whole dollars in turn.
const MOST_KEPT: u32 = 29;

/// Rounds a price down to a whole number, at most the greatest price.
fn whole(price: f64) -> u16
    ensures { result ≤ DUAL_PRICE }
{
    saturating_f64_to_u16(price).min(DUAL_PRICE)
}

/// Returns the margin of the package with a number.
fn margin_at(worths: &[i32], charges: &[f64; 393], number: usize) -> f64
    requires all { length worths.now ≡ 393 }
    requires number { number < 393 }
{
    f64::from(worths[number]) - charges[number]
}

/// Returns the greatest of the margins of a client's packages. It computes four at a time.
pub(crate) fn best_margin(worths: &[i32], charges: &[f64; 393]) -> f64
    requires { length worths.now ≡ 393 }
{
    let mut most = [margin_at(worths, charges, 392); 4];
    for block in 0..98 {
        for lane in 0..4 {
            let margin = margin_at(worths, charges, 4 * block + lane);
            if margin > most[lane] {
                most[lane] = margin;
            }
        }
    }
    most[0].max(most[1]).max(most[2]).max(most[3])
}

/// Returns the row with these whole prices.
pub(crate) fn row_of(prices: &Prices) -> Row {
    let mut row = [0.0; WIDTH];
    for good in 0..28 {
        row[good] = f64::from(prices.dollars[good]);
    }
    row
}

impl Relaxation {
    /// Returns the bound that whole prices give, in dollars, if each client has a package left.
    pub(crate) fn bound_at(&self, prices: &Prices) -> f64 {
        let row = row_of(prices);
        let mut charges = [0.0; 393];
        charge(&mut charges, &self.worths.features, &row);
        let mut bound = 0.0;
        for good in 0..28 {
            bound += row[good] * self.stock[good];
        }
        for client in 0..8 {
            bound += best_margin(self.worths.row(client), &charges);
        }
        bound
    }

    /// Returns whole prices near those of the relaxation. If it is not worth more than a total in dollars, also seeks others that may
    /// bound what is left by the total.
    pub fn prices_for(&self, total: u32) -> Prices
        ensures { ArePrices result }
    {
        if self.is_worth_more(total) {
            self.rounded(0.0).0
        } else {
            self.prices_within(f64::from(total))
        }
    }

    /// Returns whole prices with a low bound.
    pub fn prices(&self) -> Prices
        ensures { ArePrices result }
    {
        self.prices_within(f64::from(whole(self.tableau.value() + 1.0 - TOLERANCE)))
    }

    /// Returns `prices`, or `None` if the relaxation is worth more than a total in dollars.
    pub fn prices_if_worth_no_more(&self, total: u32) -> Option<Prices>
        ensures { IfSome result ArePrices }
    {
        if self.is_worth_more(total) {
            None
        } else {
            Some(self.prices())
        }
    }

    /// Returns whole prices whose bound is at most `most`, if it finds them, and otherwise whole prices near those of the relaxation.
    fn prices_within(&self, most: f64) -> Prices {
        let (near, bound) = self.rounded(most);
        if bound > most && self.tableau.infeasible(&self.worths).is_none() {
            if let Some(prices) = self.tableau.whole_prices(&self.worths, most) {
                return prices;
            }
        }
        near
    }

    /// Returns the prices of the relaxation, rounded to the nearest dollar, down or up, with the lowest bound or the first bound of
    /// at most `most`, and that bound.
    fn rounded(&self, most: f64) -> (Prices, f64) {
        let mut best = self.tableau.prices_at(0.5);
        let mut bound = self.bound_at(&best);
        for shift in [TOLERANCE, 1.0 - TOLERANCE] {
            if bound <= most {
                return (best, bound);
            }
            let other = self.tableau.prices_at(shift);
            let lower = self.bound_at(&other);
            if lower < bound {
                best = other;
                bound = lower;
            }
        }
        (best, bound)
    }
}

impl Tableau {
    /// Returns the price of a good, 0..27, plus a part of a dollar, rounded down to whole dollars.
    fn price(&self, good: usize, shift: f64) -> u16
        requires { good < GOODS }
        ensures { result ≤ DUAL_PRICE }
    {
        whole(self.prices[good] + shift)
    }

    /// Returns the prices, each plus a part of a dollar, rounded down to whole dollars.
    fn prices_at(&self, shift: f64) -> Prices {
        let mut dollars = [0; 28];
        for good in 0..28 {
            dollars[good] = self.price(good, shift);
        }
        Prices { dollars }
    }

    /// Returns whether the price of a good, 0..27, is not a whole number of dollars.
    pub(crate) fn is_between(&self, good: usize) -> bool
        requires { good < GOODS }
    {
        let price = self.prices[good].min(f64::from(DUAL_PRICE));
        price - f64::from(self.price(good, TOLERANCE)) > TOLERANCE
    }

    /// Returns a good whose price is not a whole number of dollars.
    fn fractional(&self) -> Option<usize>
        ensures { IfSome result (λ good. good < GOODS) }
    {
        for good in 0..28 {
            if self.is_between(good) {
                return Some(good);
            }
        }
        None
    }

    /// Returns whole prices with which the relaxation is worth at most `most`, if it finds them: it fixes the prices one by one at the
    /// whole dollar above or, if the relaxation is then worth too much, below.
    #[inline(never)]
    fn whole_prices(&self, worths: &WorthTable, most: f64) -> Option<Prices> {
        let mut limits = Limits::none();
        let mut found = *self;
        for _ in 0..MOST_KEPT {
            let Some(good) = found.fractional() else {
                return Some(found.prices_at(TOLERANCE));
            };
            let below = f64::from(found.price(good, TOLERANCE));
            limits.low[good] = below + 1.0;
            limits.high[good] = below + 1.0;
            let mut other = found;
            other.solve(worths, &limits);
            if other.value() > most + TOLERANCE {
                limits.low[good] = below;
                limits.high[good] = below;
                other = found;
                other.solve(worths, &limits);
                if other.value() > most + TOLERANCE {
                    return None;
                }
            }
            found = other;
        }
        None
    }
}
