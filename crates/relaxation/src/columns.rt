// The columns of the linear program.
ghost use Rattle.std.specs.Prelude.{◌≡◌, ◌<◌};
ghost use Rattle.tac_base.specs.declared.limits.TheConstants.{GOODS};
ghost use Rattle.packages.specs.Packages.{IsPackage};

use packages::{Package, package};
use tac_base::Good;
use tac_base::limits::{AGENTS, GOODS};

/// The number of the first rows of the linear program: one for each good, whose use is limited to its stock.
pub(crate) const GOOD_ROWS: usize = GOODS as usize;

/// The number of all rows: those of the goods, and then one for each of 8 clients, whose shares of packages add up to one.
pub(crate) const ROWS: usize = GOOD_ROWS + AGENTS as usize;

/// A good, as the number of its row.
#[derive(Clone, Copy)]
pub(crate) struct GoodRow {
    pub(crate) good: usize,
    ghost is_good: { good < GOODS },
}

/// A client and a package, both as numbers.
#[derive(Clone, Copy)]
pub(crate) struct ClientPackage {
    pub(crate) client: usize,
    pub(crate) number: usize,
    ghost is_client: { client < 8 },
    ghost is_package: { number < 393 },
}

/// A column, whose amount is a variable of the linear program.
#[derive(Clone, Copy)]
pub(crate) enum SimplexColumn {
    /// The slack of a good: the units of it that are left over.
    Slack(GoodRow),
    /// The surplus of a good: the units of it beyond the stock.
    Surplus(GoodRow),
    /// The share that a client has of a package.
    Share(ClientPackage),
}

/// A nonbasic column that enters the basis.
#[derive(Clone, Copy)]
pub(crate) struct Entering {
    pub(crate) column: SimplexColumn,
    /// What one more unit of the column adds to the value; below 0 in a dual step.
    pub(crate) reduced_cost: f64,
}

impl ClientPackage {
    /// Returns the package.
    pub(crate) fn package(&self) -> Package
        ensures { IsPackage result }
    {
        package(self.number as u16).unwrap()
    }
}

impl SimplexColumn {
    /// Returns the rank of a column in the order that breaks ties, so that the simplex cannot cycle: slack and surplus of each good, then
    /// the shares of each client.
    pub(crate) fn order(&self) -> usize {
        match self {
            SimplexColumn::Slack(row) => 2 * row.good,
            SimplexColumn::Surplus(row) => 2 * row.good + 1,
            SimplexColumn::Share(share) => 2 * GOOD_ROWS + 393 * share.client + share.number,
        }
    }
}

/// Returns the row of a good.
pub(crate) fn row_of_good(good: Good) -> usize
    ensures { result < GOODS }
{
    usize::from(good.get())
}
