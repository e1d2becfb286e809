ghost use Rattle.std.specs.Prelude.{◌≡◌, ◌≢◌, ℕ, ◌<◌, ◌↔◌, Contains, IsSome, IfSome, slice_get};
ghost use Rattle.packages.specs.declared.travel_packages.Package.{Package};
ghost use Rattle.packages.specs.{IsPackage, packages, night_of};
ghost use Rattle.packages.specs.Decoding.{trip_at, nights_at};

use crate::travel_packages::Package;

/// The nights of the three tickets in a stay whose first night is 1, ordered by the latest night.
static NIGHTS: [[u8; 3]; 73] = [
    [0, 0, 0],
    [0, 0, 1],
    [0, 1, 0],
    [1, 0, 0],
    [0, 0, 2],
    [0, 1, 2],
    [0, 2, 0],
    [0, 2, 1],
    [1, 0, 2],
    [1, 2, 0],
    [2, 0, 0],
    [2, 0, 1],
    [2, 1, 0],
    [0, 0, 3],
    [0, 1, 3],
    [0, 2, 3],
    [0, 3, 0],
    [0, 3, 1],
    [0, 3, 2],
    [1, 0, 3],
    [1, 2, 3],
    [1, 3, 0],
    [1, 3, 2],
    [2, 0, 3],
    [2, 1, 3],
    [2, 3, 0],
    [2, 3, 1],
    [3, 0, 0],
    [3, 0, 1],
    [3, 0, 2],
    [3, 1, 0],
    [3, 1, 2],
    [3, 2, 0],
    [3, 2, 1],
    [0, 0, 4],
    [0, 1, 4],
    [0, 2, 4],
    [0, 3, 4],
    [0, 4, 0],
    [0, 4, 1],
    [0, 4, 2],
    [0, 4, 3],
    [1, 0, 4],
    [1, 2, 4],
    [1, 3, 4],
    [1, 4, 0],
    [1, 4, 2],
    [1, 4, 3],
    [2, 0, 4],
    [2, 1, 4],
    [2, 3, 4],
    [2, 4, 0],
    [2, 4, 1],
    [2, 4, 3],
    [3, 0, 4],
    [3, 1, 4],
    [3, 2, 4],
    [3, 4, 0],
    [3, 4, 1],
    [3, 4, 2],
    [4, 0, 0],
    [4, 0, 1],
    [4, 0, 2],
    [4, 0, 3],
    [4, 1, 0],
    [4, 1, 2],
    [4, 1, 3],
    [4, 2, 0],
    [4, 2, 1],
    [4, 2, 3],
    [4, 3, 0],
    [4, 3, 1],
    [4, 3, 2],
];

/// Returns the days of the trip of the ticket choice with a number, and that trip's first number.
fn trip_at(left: u16) -> (u8, u8, u16)
    ensures { result ≡ trip_at left }
{
    if left < 4 {
        (1, 2, 0)
    } else if left < 17 {
        (1, 3, 4)
    } else if left < 51 {
        (1, 4, 17)
    } else if left < 124 {
        (1, 5, 51)
    } else if left < 128 {
        (2, 3, 124)
    } else if left < 141 {
        (2, 4, 128)
    } else if left < 175 {
        (2, 5, 141)
    } else if left < 179 {
        (3, 4, 175)
    } else if left < 192 {
        (3, 5, 179)
    } else {
        (4, 5, 192)
    }
}

/// Returns the nights of a ticket choice.
#[tactic(auto, unfolding(crate::specs::Decoding::nights_at))]
fn nights_at(number: usize) -> [u8; 3]
    requires { number < 73 }
    ensures { result ≡ nights_at number }
{
    NIGHTS[number]
}

/// Returns a night of a stay that begins on `arrive`, whose first night is 1; 0 is no night.
fn night_at(arrive: u8, night: u8) -> u8
    requires few { arrive < 5 }
    requires short { night < 5 }
    ensures { result ≡ night_of arrive night }
{
    if night == 0 { 0 } else { arrive + night - 1 }
}

/// Computes the package with a number.
fn decoded(n: u16) -> Option<Package>
    ensures { result ≡ slice_get packages n }
{
    if n == 0 {
        return Some(Package::None);
    }
    if n >= 393 {
        return None;
    }
    let hotel = if n < 197 { 0 } else { 1 };
    let left = (n - 1) % 196;
    let (arrive, depart, first) = trip_at(left);
    let nights = nights_at((left - first) as usize);
    Some(Package::Trip {
        hotel,
        arrive,
        depart,
        nights: [
            night_at(arrive, nights[0]),
            night_at(arrive, nights[1]),
            night_at(arrive, nights[2]),
        ],
    })
}

/// Returns the package with a number, 0..392, or `None` past the last. Each package has one number.
pub fn package(n: u16) -> Option<Package>
    ensures value { result ≡ slice_get packages n }
    ensures variant { IsSome result ↔ (n < 393) }
    ensures lawful { IfSome result (λ p. IsPackage p) }

    // The list has exactly the packages, each once.
    ensures each { (p : Package) → Contains packages p ↔ IsPackage p }
    ensures once { (k m : ℕ) → k < m → m < 393 → slice_get packages k ≢ slice_get packages m }
{
    decoded(n)
}
