ghost use Rattle.std.specs.Prelude.{◌≡◌, ◌≤◌};
ghost use Rattle.packages.specs.Goods.{good_number, thing_of};
ghost use Rattle.packages.specs.Packages.{IsPackage, use_of};

use crate::travel_packages::Package;
use tac_base::Good;

/// Returns how many units of a good the package, one of the 393, uses: a seat on the days of arrival and departure, a room
/// of its hotel for each night of the stay, and the tickets named.
pub fn uses(package: &Package, good: Good) -> u8
    requires { IsPackage «package».now }
    ensures value { result ≡ use_of «package».now good }
    ensures few { result ≤ 1 }

    // Decoding a good's number and encoding it again gives the same number.
    ensures number { good_number (thing_of good) ≡ good }
{
    let number = good.get();
    match package {
        Package::None => 0,
        Package::Trip {
            hotel,
            arrive,
            depart,
            nights,
        } => {
            let is_used = if number < 4 {
                number + 1 == *arrive
            } else if number < 8 {
                number - 2 == *depart
            } else if number < 16 {
                let night = (number - 8) % 4 + 1;
                (number - 8) / 4 == *hotel && *arrive <= night && night < *depart
            } else {
                nights[(number as usize - 16) / 4] == (number - 16) % 4 + 1
            };
            u8::from(is_used)
        }
    }
}
