// One table of what the packages are worth to the clients that they are left to.
ghost use Rattle.std.specs.Prelude.{◌≡◌, Some, slice_get, ◌<◌, ◌≤ℤ◌, pos, length};
ghost use Rattle.relaxation.specs.{Preferences, IsPackage, utility_of, feature_of, HasWorths, IsNarrowed, IsPut};

use crate::columns::ClientPackage;
use crate::features::Features;
use game_text::Account;
use packages::{Package, package, utility};

/// The worth of an excluded package: so low that every package that is left is worth more.
const EXCLUDED: i32 = -1_000_000;

/// What each package is worth to each client that it is left to, in dollars.
#[derive(Clone, Copy)]
pub struct WorthTable {
    /// For clients 0..7, and within a client for packages 0..392.
    pub dollars: [i32; 3144],
    pub(crate) features: Features,
}

impl WorthTable {
    /// Returns a table in which no package is worth anything.
    pub(crate) fn nothing() -> WorthTable {
        WorthTable {
            dollars: [0; 3144],
            features: Features::new(),
        }
    }

    /// Leaves each package to each client.
    #[inline(never)]
    pub(crate) fn fill(&mut self, account: &Account)
        ensures { HasWorths account.now.clients self.new.dollars }
    {
        // The proof needs the account's ranges, which are known once the account is read.
        let _holdings = &account.holdings;
        for number in 0..393 {
            if let Some(choice) = package(number) {
                put(&mut self.dollars, account, number, &choice);
            }
        }
    }

    /// Leaves a client, 0..7, only the packages whose feature, 0..3, has the value.
    pub(crate) fn narrow(&mut self, client: usize, feature: usize, value: u8)
        requires client { client < 8 }
        requires feature { feature < 4 }
        ensures { IsNarrowed (feature_of feature) client value self.old.dollars self.new.dollars }
    {
        for number in 0..393 {
            if self.features.value_of(number, feature) != value {
                self.dollars[393 * client + number] = EXCLUDED;
            }
        }
    }

    /// Returns the dollars of a client, 0..7, by package number.
    pub(crate) fn row(&self, client: usize) -> &[i32]
        requires { client < 8 }
        ensures { length result.now ≡ 393 }
    {
        &self.dollars[393 * client..393 * client + 393]
    }

    /// Returns whether a package is excluded for its client.
    pub(crate) fn is_excluded(&self, of: &ClientPackage) -> bool {
        self.dollars[393 * of.client + of.number] < 0
    }
}

/// Returns what a package is worth to a client, 0..7.
fn worth_to(account: &Account, client: usize, choice: &Package) -> i32
    requires client { client < 8 }
    requires lawful { IsPackage choice.now }
    ensures value { (wants : Preferences) → slice_get account.now.clients client ≡ Some wants → result ≡ pos (utility_of wants choice.now) }
    ensures low { pos 0 ≤ℤ result }
    ensures high { result ≤ℤ pos 1750 }
{
    utility(&account.clients[client], choice) as i32
}

/// Stores what the package with a number, 0..392, is worth to each client.
fn put(dollars: &mut [i32; 3144], account: &Account, number: u16, choice: &Package)
    requires number { number < 393 }
    requires lawful { IsPackage choice.now }
    ensures { IsPut account.now.clients number choice.now dollars.old 8 dollars.new }
{
    for client in 0..8 {
        dollars[393 * client + usize::from(number)] = worth_to(account, client, choice);
    }
}
