// Prices that keep clients from goods that are used up.
ghost use Rattle.std.specs.Prelude.{◌≡◌, ℕ, ◌<◌, ◌≤◌, slice_index, All};
ghost use Rattle.allocator.specs.Prelude.{IsPackage, ArePrices, stock_of};
ghost use Rattle.allocator.specs.Scarcity.{scarcity_price};

use game_text::Account;
use packages::{Package, Prices, is_used_up};
use tac_base::limits::{DUAL_PRICE, GOODS};

/// Returns the price in dollars of a good, 0..27: the greatest price if the packages use the good up, else 0.
fn scarcity_price(account: &Account, allocation: &[Package; 8], number: u8) -> u16
    requires lawful { All IsPackage allocation.now }
    requires good { number < GOODS }
    ensures value { result ≡ scarcity_price (stock_of account.now.holdings) allocation.now number }
    ensures few { result ≤ DUAL_PRICE }
{
    if is_used_up(account, allocation, number) {
        DUAL_PRICE
    } else {
        0
    }
}

/// Returns the greatest price for each good that the packages use up, and 0 for the others.
pub(crate) fn scarcity_prices(account: &Account, allocation: &[Package; 8]) -> Prices
    requires { All IsPackage allocation.now }
    ensures range { ArePrices result }
    ensures each { (good : ℕ) → good < GOODS → slice_index result good ≡ scarcity_price (stock_of account.now.holdings) allocation.now good }
{
    let mut dollars = [0; 28];
    for good in 0..28 {
        dollars[good] = scarcity_price(account, allocation, good as u8);
    }
    Prices { dollars }
}
