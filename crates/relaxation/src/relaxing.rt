// The relaxation: the most that fractions of packages can be worth.
ghost use Rattle.std.specs.Prelude.{◌≡◌, ◌<◌};
ghost use Rattle.packages.specs.Features.{feature_of};
ghost use Rattle.relaxation.specs.Tables.{HasWorths, IsNarrowed};

use crate::primal_simplex::Limits;
use crate::tableau::{TOLERANCE, Tableau};
use crate::worth_table::WorthTable;
use game_text::Account;
use packages::stock;

/// The most basic variables that are pivoted out after packages are excluded.
const MOST_REPAIRS: u32 = 100;

/// What is left to the clients if each can have fractions of packages that add up to one, and prices for it.
#[derive(Clone, Copy)]
pub struct Relaxation {
    pub worths: WorthTable,
    pub(crate) stock: [f64; 28],
    pub(crate) tableau: Tableau,
}

impl Relaxation {
    /// Returns the solved relaxation in which every package is left to every client.
    #[inline(never)]
    pub fn new(account: &Account) -> Relaxation
        ensures { HasWorths account.now.clients result.worths.dollars }
    {
        let mut relaxation = Relaxation {
            worths: WorthTable::nothing(),
            stock: amounts(account),
            tableau: Tableau::nothing(),
        };
        relaxation.worths.fill(account);
        relaxation.tableau.begin(&relaxation.stock);
        relaxation
            .tableau
            .solve(&relaxation.worths, &Limits::none());
        relaxation
    }

    /// Leaves a client, 0..7, only the packages whose feature, 0..3, has the value, without solving the rest.
    pub fn narrow(&mut self, client: u8, feature: u8, value: u8)
        requires client { client < 8 }
        requires feature { feature < 4 }
        ensures { IsNarrowed (feature_of feature) client value self.old.worths.dollars self.new.worths.dollars }
    {
        self.worths
            .narrow(usize::from(client), usize::from(feature), value);
    }

    /// Solves what is left, far enough to tell whether it is worth more than a total in dollars.
    pub fn repair(&mut self, total: u32)
        ensures { self.new.worths ≡ self.old.worths }
    {
        self.tableau
            .repair(&self.worths, f64::from(total), MOST_REPAIRS);
    }

    /// Returns whether the fractions together are worth more than a total in dollars.
    pub fn is_worth_more(&self, total: u32) -> bool {
        self.tableau.value() > f64::from(total) + TOLERANCE
    }
}

/// Returns the stock of each good.
fn amounts(account: &Account) -> [f64; 28] {
    let mut amounts = [0.0; 28];
    for good in 0..28 {
        amounts[good] = f64::from(stock(account, good));
    }
    amounts
}
