ghost use Rattle.std.specs.Prelude.{◌≡◌, ℕ, ◌<◌, ◌≤◌, ◌*◌, ◌+◌, ◌^◌, pos, negsuc, ◌≤ℤ◌, Bool, Some, slice_index, IfSome};
ghost use Rattle.std.specs.Option.{ForSome};
ghost use Rattle.tac_base.specs.declared.limits.TheConstants.{DUAL_PRICE, HOLDING};
ghost use Rattle.packages.specs.declared.travel_packages.Package.{Package};
ghost use Rattle.packages.specs.Packages.{IsPackage};
ghost use Rattle.packages.specs.Bounds as bounds;
ghost use Rattle.packages.specs.Stocks.{stock_of};

use crate::costs::cost;
use crate::listing::package;
use crate::prices::Prices;
use crate::travel_packages::Package;
use crate::utilities::utility;
use game_text::Account;
use tac_base::Client;
use tac_base::limits::GOODS;

/// Which packages are left to each client.
pub trait Narrowing {
    ghost left: { Self → ℕ → Package → Bool };

    /// Returns whether a package is left to the client with a number, 0..7.
    fn keeps(&self, client: usize, package: &Package) -> bool
        requires client { client < 8 }
        requires lawful { IsPackage «package».now }
        ensures { result ≡ left self.now client «package».now };
}

/// Returns how many units of a good, 0..27, the agent can use: none if it is short of the good.
pub fn stock(account: &Account, good: usize) -> u32
    requires { good < GOODS }
    ensures value { result ≡ stock_of account.now.holdings good }
    ensures few { pos result ≤ℤ HOLDING }
{
    let held = account.holdings[good];
    if held > 0 { held.unsigned_abs() } else { 0 }
}

/// Returns what the stock of one good costs.
fn stock_value_at(account: &Account, prices: &Prices, good: usize) -> u64
    requires { good < GOODS }
    ensures value { result ≡ slice_index prices.now good * stock_of account.now.holdings good }
    ensures few { result ≤ 2 ^ 48 }
{
    u64::from(prices.dollars[good]) * u64::from(stock(account, good))
}

/// Returns what the goods that an agent can use cost at the prices, in dollars; a good that it is short of costs nothing.
#[tactic(auto, using(crate::proofs::Sums::sum_below_more, crate::proofs::Sums::sum_below_none))]
pub fn stock_value(account: &Account, prices: &Prices) -> u64
    ensures value { result ≡ bounds.stock_value account.now.holdings prices.now }
    ensures few { result ≤ GOODS * 2 ^ 48 }
{
    let mut total = 0;
    for good in 0..28 {
        total += stock_value_at(account, prices, good);
    }
    total
}

/// Returns what the package, one of the 393, is worth to the client beyond its cost, in dollars.
fn margin(client: &Client, prices: &Prices, package: &Package) -> i64
    requires { IsPackage «package».now }
    ensures value { result ≡ bounds.margin_of client.now prices.now «package».now }
    ensures low { negsuc (9 * DUAL_PRICE) ≤ℤ result }
    ensures high { result ≤ℤ pos 1750 }
{
    i64::from(utility(client, package)) - i64::from(cost(prices, package))
}

/// Returns the greater of the margin so far and the package's margin.
fn raised(most: Option<i64>, client: &Client, prices: &Prices, package: &Package) -> Option<i64>
    requires lawful { IsPackage «package».now }
    requires low { ForSome most (λ n. negsuc (9 * DUAL_PRICE) ≤ℤ n) }
    requires high { ForSome most (λ n. n ≤ℤ pos 1750) }
    ensures value { result ≡ bounds.greater most (Some (bounds.margin_of client.now prices.now «package».now)) }
    ensures low { IfSome result (λ n. negsuc (9 * DUAL_PRICE) ≤ℤ n) }
    ensures high { IfSome result (λ n. n ≤ℤ pos 1750) }
{
    let other = margin(client, prices, package);
    match most {
        None => Some(other),
        Some(one) => Some(if other < one { one } else { other }),
    }
}

/// Returns the greatest margin of a client, 0..7, among the packages that are left to it; `None` if none
/// is left.
fn best_margin<N: Narrowing>(
    client: &Client,
    prices: &Prices,
    narrowing: &N,
    number: usize,
) -> Option<i64>
    requires { number < 8 }
    ensures value { result ≡ bounds.best_margin client.now prices.now (N.left narrowing.now number) }
    ensures low { IfSome result (λ n. negsuc (9 * DUAL_PRICE) ≤ℤ n) }
    ensures high { IfSome result (λ n. n ≤ℤ pos 1750) }
{
    let mut most = None;
    for n in 0..393 {
        if let Some(choice) = package(n) {
            if narrowing.keeps(number, &choice) {
                most = raised(most, client, prices, &choice);
            }
        }
    }
    most
}

/// Adds one more client's margin to the bound over the clients before it, `number` of them.
fn added(bound: Option<i64>, other: Option<i64>, number: usize) -> Option<i64>
    requires number { number < 8 }
    requires low { ForSome bound (λ n. negsuc (2000000 * number) ≤ℤ n) }
    requires high { ForSome bound (λ n. n ≤ℤ pos (2 ^ 53 + 2000 * number)) }
    requires other_low { ForSome other (λ n. negsuc (9 * DUAL_PRICE) ≤ℤ n) }
    requires other_high { ForSome other (λ n. n ≤ℤ pos 1750) }
    ensures value { result ≡ bounds.plus bound other }
    ensures low { IfSome result (λ n. negsuc (2000000 * (number + 1)) ≤ℤ n) }
    ensures high { IfSome result (λ n. n ≤ℤ pos (2 ^ 53 + 2000 * (number + 1))) }
{
    match (bound, other) {
        (Some(sum), Some(more)) => Some(sum + more),
        _ => None,
    }
}

/// Returns the leaf bound, in dollars: what the stock costs, plus each client's greatest margin among its packages left.
/// It is `None` if no package is left to some client. This project defines that bounds use prices.
pub fn leaf_bound<N: Narrowing>(account: &Account, narrowing: &N, prices: &Prices) -> Option<i64>
    ensures { result ≡ bounds.leaf_bound account.now (N.left narrowing.now) prices.now }
{
    let mut bound = Some(stock_value(account, prices) as i64);
    for number in 0..8 {
        bound = added(
            bound,
            best_margin(&account.clients[number], prices, narrowing, number),
            number,
        );
    }
    bound
}
