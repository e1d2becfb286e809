// How many goods eight packages use together, and what they are worth.
ghost use Rattle.std.specs.Prelude.{◌≡◌, ℕ, ◌<◌, ◌≤◌, false, nat_le, length, IsTrue, All};
ghost use Rattle.tac_base.specs.declared.limits.TheConstants.{BEST_TOTAL};
ghost use Rattle.packages.specs.BestTotal.{total_of, used_by};
ghost use Rattle.packages.specs.Packages.{IsPackage};
ghost use Rattle.packages.specs.Stocks.{stock_of};

use crate::bounds::stock;
use crate::goods_used::uses;
use crate::travel_packages::Package;
use crate::utilities::utility;
use game_text::Account;
use tac_base::Good;
use tac_base::limits::GOODS;

/// Returns the good with a number, 0..27.
fn good(number: u8) -> Good
    requires { number ≤ 27 }
    ensures { result ≡ number }
{
    Good::new(number).unwrap()
}

/// Returns how many units of a good the packages use together.
fn used(allocation: &[Package; 8], good: Good) -> u32
    requires { All IsPackage allocation.now }
    ensures value { result ≡ used_by allocation.now good }
    ensures few { result ≤ length allocation.now }
{
    let mut total = 0;
    for package in allocation.iter() {
        total += u32::from(uses(package, good));
    }
    total
}

/// Returns whether the packages, each one of the 393, use at least as much of a good, 0..27, as the agent can use: nothing of
/// it is left, or there is too little.
pub fn is_used_up(account: &Account, allocation: &[Package; 8], number: u8) -> bool
    requires lawful { All IsPackage allocation.now }
    requires good { number < GOODS }
    ensures { result ≡ nat_le (stock_of account.now.holdings number) (used_by allocation.now number) }
{
    stock(account, usize::from(number)) <= used(allocation, good(number))
}

/// Returns whether the packages, each one of the 393, use no more of any good than the agent can use.
pub fn is_enough(account: &Account, allocation: &[Package; 8]) -> bool
    requires { All IsPackage allocation.now }
    ensures enough { IsTrue result → (good : ℕ) → good < GOODS → used_by allocation.now good ≤ stock_of account.now.holdings good }
    ensures short { result ≡ false → (good : ℕ) × (good < GOODS) × (stock_of account.now.holdings good < used_by allocation.now good) }
{
    for number in 0..28 {
        if used(allocation, good(number)) > stock(account, usize::from(number)) {
            return false;
        }
    }
    true
}

/// Returns what the packages, each one of the 393, are worth to the clients together, in dollars.
pub fn allocation_worth(account: &Account, allocation: &[Package; 8]) -> u32
    requires lawful { All IsPackage allocation.now }
    requires eight { length allocation.now ≡ 8 }
    ensures value { result ≡ total_of account.now.clients allocation.now }
    ensures few { result ≤ BEST_TOTAL }
{
    let mut total = 0;
    for number in 0..8 {
        total += utility(&account.clients[number], &allocation[number]);
    }
    total
}
