ghost use Rattle.std.specs.Prelude.{◌≡◌, ◌<◌, ◌≤◌};
ghost use Rattle.std.specs.Int.{abs_diff};
ghost use Rattle.packages.specs.Packages.{IsPackage, fun_of, utility_of};

use crate::travel_packages::Package;
use tac_base::Client;

/// Returns the number of days between two days.
fn days_between(a: u8, b: u8) -> u32
    ensures { result ≡ abs_diff a b }
{
    u32::from(a.abs_diff(b))
}

/// Returns the value of a ticket type, or 0 if it has no night.
fn fun(client: &Client, nights: &[u8; 3], kind: usize) -> u32
    requires { kind < 3 }
    ensures value { result ≡ fun_of client.now.values nights.now kind }
    ensures few { result ≤ 200 }
{
    if nights[kind] == 0 {
        0
    } else {
        u32::from(client.values[kind])
    }
}

/// Returns what the package, one of the 393, is worth to the client, in dollars: 1000 for a trip, less 100 for each day by
/// which arrival and departure differ from the preferred days, plus the client's premium in Tampa Towers and its values of the
/// ticket types used. The numbers are the game description's.
pub fn utility(client: &Client, package: &Package) -> u32
    requires { IsPackage «package».now }
    ensures value { result ≡ utility_of client.now «package».now }
    ensures bound { result ≤ 1750 }
{
    match package {
        Package::None => 0,
        Package::Trip {
            hotel,
            arrive,
            depart,
            nights,
        } => {
            let days = days_between(*arrive, client.arrive) + days_between(*depart, client.depart);
            let premium = if *hotel == 1 {
                u32::from(client.premium)
            } else {
                0
            };
            1000 - 100 * days
                + premium
                + fun(client, nights, 0)
                + fun(client, nights, 1)
                + fun(client, nights, 2)
        }
    }
}
