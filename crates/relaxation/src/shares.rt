// The shares of packages that clients have, and the packages of which they have the whole.
ghost use Rattle.std.specs.Prelude.{◌≡◌, ◌<◌, length, IfSome, All};
ghost use Rattle.packages.specs.Packages.{IsPackage};

use crate::charges::charge;
use crate::columns::{ClientPackage, ROWS, SimplexColumn};
use crate::primal_simplex::best_package;
use crate::relaxing::Relaxation;
use crate::rounding::row_of;
use crate::tableau::{AMOUNT, TOLERANCE};
use packages::{Package, Prices};

impl Relaxation {
    /// Returns the packages of which the clients have the whole; a client without one stays at home.
    pub fn packages(&self) -> [Package; 8]
        ensures eight { length result ≡ 8 }
        ensures lawful { All IsPackage result }
    {
        let mut packages = [Package::None; 8];
        for client in 0..8 {
            packages[client] = self.package_of(client);
        }
        packages
    }

    /// Returns `packages`, or `None` if the relaxation is not worth more than a total in dollars.
    pub fn packages_if_worth_more(&self, total: u32) -> Option<[Package; 8]>
        ensures eight { IfSome result (λ packages. length packages ≡ 8) }
        ensures lawful { IfSome result (All IsPackage) }
    {
        if self.is_worth_more(total) {
            Some(self.packages())
        } else {
            None
        }
    }

    /// Returns the package of which a client, 0..7, has the whole, or else the package of a client at home.
    fn package_of(&self, client: usize) -> Package
        requires { client < 8 }
        ensures { IsPackage result }
    {
        let mut number = 0;
        for row in 0..ROWS {
            if let SimplexColumn::Share(of) = &self.tableau.basis[row] {
                if of.client == client && self.tableau.rows[row][AMOUNT] > 1.0 - TOLERANCE {
                    number = of.number;
                }
            }
        }
        ClientPackage { client, number }.package()
    }

    /// Returns the package that is worth most to a client, 0..7, beyond its cost at the prices, of those left to it and the one
    /// that it has.
    pub fn best_left(&self, client: usize, prices: &Prices, has: &Package) -> Package
        requires client { client < 8 }
        requires lawful { IsPackage has.now }
        ensures { IsPackage result }
    {
        let mut charges = [0.0; 393];
        charge(&mut charges, &self.worths.features, &row_of(prices));
        let (number, most) = best_package(self.worths.row(client), &charges);
        if most < 0.0 {
            *has
        } else {
            ClientPackage { client, number }.package()
        }
    }

    /// Returns how much of a client's packages have each value of a feature, 0..3.
    pub(crate) fn shares(&self, client: usize, feature: usize) -> [f64; 21]
        requires { feature < 4 }
    {
        let mut shares = [0.0; 21];
        for row in 0..ROWS {
            if let SimplexColumn::Share(of) = &self.tableau.basis[row] {
                if of.client == client {
                    let value = self.worths.features.value_of(of.number, feature);
                    shares[usize::from(value)] += self.tableau.rows[row][AMOUNT];
                }
            }
        }
        shares
    }
}
