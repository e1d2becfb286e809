// Builds allocations from the packages that a choice leaves.
ghost use Rattle.std.specs.Prelude.{◌≡◌, ℕ, ◌<◌, true, length, IfSome, IfNone, All};
ghost use Rattle.allocator.specs.{IsPackage, chosen, IsOut, ArePackagesLeft};

use crate::scarcity::scarcity_prices;
use dual_bound::Choice;
use game_text::Account;
use packages::{Narrowing, Package, package};
use relaxation::Relaxation;

/// Returns the first package left to a client, 0..7: the only one if all the client's features are fixed.
fn first_left(choice: &Choice, client: usize) -> Option<Package>
    requires { client < 8 }
    ensures lawful { IfSome result IsPackage }
    ensures kept { IfSome result (λ p. chosen choice.now client p ≡ true) }
    ensures out { IfNone result (IsOut (chosen choice.now) client) }
{
    for n in 0..393 {
        if let Some(other) = package(n) {
            if choice.keeps(client, &other) {
                return Some(other);
            }
        }
    }
    None
}

/// Returns the first package left to each client, or None if some client has none.
pub(crate) fn first_choice(choice: &Choice) -> Option<[Package; 8]>
    ensures eight { IfSome result (λ allocation. length allocation ≡ 8) }
    ensures lawful { IfSome result (All IsPackage) }
    ensures left { IfSome result (ArePackagesLeft (chosen choice.now)) }
    ensures out { IfNone result ((client : ℕ) × (client < 8) × IsOut (chosen choice.now) client) }
{
    let mut allocation = [Package::None; 8];
    for client in 0..8 {
        match first_left(choice, client) {
            Some(first) => {
                allocation[client] = first;
            }
            None => return None,
        }
    }
    Some(allocation)
}

/// Gives each client in turn a better package, at prices that keep it from goods that the others use up.
pub(crate) fn better_choice(
    account: &Account,
    relaxation: &Relaxation,
    first: &[Package; 8],
) -> [Package; 8]
    requires eight { length first.now ≡ 8 }
    requires lawful { All IsPackage first.now }
    ensures eight { length result ≡ 8 }
    ensures lawful { All IsPackage result }
{
    let mut allocation = *first;
    for client in 0..8 {
        let has = allocation[client];
        let mut others = allocation;
        others[client] = Package::None;
        let prices = scarcity_prices(account, &others);
        allocation[client] = relaxation.best_left(client, &prices, &has);
    }
    allocation
}
