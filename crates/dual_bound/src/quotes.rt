// Prices with the bounds that they give for all packages.
ghost use Rattle.std.specs.Prelude.{◌≡◌, ℕ, ◌+◌, ◌*◌, ◌<◌, ◌≤◌, ◌^◌, ◌⊎◌, pos, negsuc, ◌+ℤ◌, ◌-ℤ◌, ◌≤ℤ◌, true, false, slice_index};
ghost use Rattle.dual_bound.specs.{GOODS, dollars_at, AreCosts, BoundsWorths, HasMore};
ghost use Rattle.packages.specs.Bounds as bounds;

use game_text::Account;
use packages::{Prices, cost, package, stock_value};
use relaxation::WorthTable;

/// Prices, what each package costs at them, and what the stock costs.
#[derive(Clone, Copy)]
pub struct Quote {
    pub prices: Prices,
    /// For packages 0..392.
    pub(crate) costs: [u32; 393],
    pub stock_value: u64,
    ghost costs_are: { AreCosts prices costs },
    ghost few: { stock_value ≤ GOODS * 2 ^ 48 },
}

impl Quote {
    /// Computes what an account's stock and all packages cost at the prices, in dollars.
    pub fn new(account: &Account, prices: &Prices) -> Quote
        ensures prices { result.prices ≡ prices.now }
        ensures stock { result.stock_value ≡ bounds.stock_value account.now.holdings prices.now }
    {
        Quote {
            prices: *prices,
            costs: costs(prices),
            stock_value: stock_value(account, prices),
        }
    }

    /// Returns whether the prices bound the worth of what is left by a claim in dollars, given a table of upper bounds of the worths.
    pub fn holds(&self, left: &WorthTable, claim: u32) -> bool
        ensures bounds { result ≡ true → BoundsWorths self.now.prices self.now.stock_value left.now.dollars claim }
        ensures more { result ≡ false → HasMore self.now.prices self.now.stock_value left.now.dollars claim }
    {
        let mut bound = self.stock_value as i64;
        for client in 0..8 {
            bound = added(bound, most(left, client, &self.costs), client);
        }
        bound <= i64::from(claim)
    }
}

/// Adds the most that one more client can add to the bound over the clients before it, `client` of them.
fn added(bound: i64, most: i64, client: usize) -> i64
    requires client { client < 8 }
    requires low { negsuc (2 ^ 34 * client) ≤ℤ bound }
    requires high { bound ≤ℤ pos (2 ^ 53 + 2 ^ 34 * client) }
    requires most_low { negsuc (2 ^ 33) ≤ℤ most }
    requires most_high { most ≤ℤ pos (2 ^ 33) }
    ensures value { result ≡ bound +ℤ most }
    ensures low { negsuc (2 ^ 34 * (client + 1)) ≤ℤ result }
    ensures high { result ≤ℤ pos (2 ^ 53 + 2 ^ 34 * (client + 1)) }
{
    bound + most
}

/// Returns what each package, 0..392, costs.
fn costs(prices: &Prices) -> [u32; 393]
    ensures { AreCosts prices.now result }
{
    let mut costs = [0; 393];
    for number in 0..393 {
        if let Some(choice) = package(number) {
            costs[usize::from(number)] = cost(prices, &choice);
        }
    }
    costs
}

/// Returns the most that any package is worth to a client, 0..7, beyond its cost, according to the table.
fn most(left: &WorthTable, client: usize, costs: &[u32; 393]) -> i64
    requires { client < 8 }
    ensures bound { (n : ℕ) → n < 393 → (dollars_at left.now.dollars client n -ℤ pos (slice_index costs.now n)) ≤ℤ result }
    ensures reached { (n : ℕ) × (n < 393) × (result ≡ dollars_at left.now.dollars client n -ℤ pos (slice_index costs.now n)) }
    ensures low { negsuc (2 ^ 33) ≤ℤ result }
    ensures high { result ≤ℤ pos (2 ^ 33) }
{
    let mut most = margin(left.dollars[393 * client], costs[0]);
    for number in 1..393 {
        let other = margin(left.dollars[393 * client + number], costs[number]);
        most = greater(most, other);
    }
    most
}

/// Returns the difference between dollars and a cost.
fn margin(dollars: i32, cost: u32) -> i64
    ensures value { result ≡ dollars -ℤ pos cost }
    ensures low { negsuc (2 ^ 33) ≤ℤ result }
    ensures high { result ≤ℤ pos (2 ^ 33) }
{
    i64::from(dollars) - i64::from(cost)
}

/// Returns the greater of two margins.
fn greater(one: i64, other: i64) -> i64
    ensures value { (result ≡ one) ⊎ (result ≡ other) }
    ensures one { one ≤ℤ result }
    ensures other { other ≤ℤ result }
{
    if other > one { other } else { one }
}
