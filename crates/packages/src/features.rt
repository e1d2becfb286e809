ghost use Rattle.std.specs.Prelude.{◌≡◌, ◌<◌};
ghost use Rattle.packages.specs.Features.{feature_of, rank_of, values_of};
ghost use Rattle.packages.specs.Packages.{IsPackage};

use crate::travel_packages::Package;

/// Returns the rank of a trip in the order of days.
fn rank(arrive: u8, depart: u8) -> u8
    requires days { arrive < depart }
    requires last { depart < 6 }
    ensures value { result ≡ rank_of arrive depart }
    ensures few { result < 16 }
{
    let first = if arrive == 1 {
        0
    } else if arrive == 2 {
        4
    } else if arrive == 3 {
        7
    } else {
        9
    };
    first + (depart - arrive - 1)
}

/// Returns the value of a package's feature. Feature 0 is the trip: 0 if there is none, and otherwise 1 to 20, by hotel and
/// then days. Features 1 to 3 are the nights of the ticket types, 0 to 4, 0 if there is none. This project defines that a
/// search and a certificate split by them.
pub fn feature_value(package: &Package, feature: u8) -> u8
    requires { IsPackage «package».now }
    ensures { result ≡ feature_of feature «package».now }
{
    match package {
        Package::None => 0,
        Package::Trip {
            hotel,
            arrive,
            depart,
            nights,
        } => {
            if feature == 0 {
                1 + 10 * *hotel + rank(*arrive, *depart)
            } else if feature < 4 {
                nights[feature as usize - 1]
            } else {
                0
            }
        }
    }
}

/// Returns how many values a feature has: 21 for the trip, 5 for the night of a ticket type.
pub fn value_count(feature: u8) -> u8
    ensures { result ≡ values_of feature }
{
    if feature == 0 { 21 } else { 5 }
}
