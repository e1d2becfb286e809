ghost use Rattle.std.specs.Prelude.{◌≡◌, ℕ, ◌+◌, ◌<◌, None};
ghost use Rattle.dual_bound.specs.Prelude.{feature_of, narrowed, values_of, fixed_at, IsPackage};
ghost use Rattle.dual_bound.specs.Choices as choices;

use packages::{Narrowing, Package, feature_value};
use std::marker::Model;

/// A narrowing of the packages of eight clients: it keeps those with the fixed values of the clients' features.
#[derive(Clone, Copy, Debug, PartialEq, Eq)]
pub struct Choice {
    /// For clients 0..7 and features 0..3: a value, 0..20 for a trip and 0..4 for a night, or `None` if nothing is fixed.
    pub fixed: [[Option<u8>; 4]; 8],
}

impl Model for Choice {
    ghost use Rattle.std.specs.Prelude.{ℕ, List, Option};
    ghost use Rattle.dual_bound.specs.Choices.{IsChoice};

    ghost Value = { List (List (Option ℕ)) };

    ghost view = { λ c. c.fixed };

    ghost invariant = { λ c. IsChoice c.fixed };

    ghost inverse = { λ fixed. record { fixed = fixed } };
}

/// Returns whether the package's feature has the fixed value, if one is fixed.
fn fits(fixed: Option<u8>, package: &Package, feature: u8) -> bool
    requires { IsPackage «package».now }
    ensures { result ≡ choices.fits fixed (feature_of feature «package».now) }
{
    match fixed {
        None => true,
        Some(value) => feature_value(package, feature) == value,
    }
}

impl Narrowing for Choice {
    ghost use Rattle.dual_bound.specs.Choices.{chosen};

    ghost left = { chosen };

    #[tactic(auto, unfolding(crate::specs::Choices::has_fixed))]
    fn keeps(&self, client: usize, package: &Package) -> bool {
        let fixed = &self.fixed[client];
        fits(fixed[0], package, 0)
            && fits(fixed[1], package, 1)
            && fits(fixed[2], package, 2)
            && fits(fixed[3], package, 3)
    }
}

impl Choice {
    /// Returns the choice that fixes nothing.
    pub fn none() -> Choice
        ensures { result ≡ choices.nothing_fixed }
    {
        Choice {
            fixed: [[None; 4]; 8],
        }
    }

    /// Returns the fixed value of a client's feature, if there is one.
    pub(crate) fn at(&self, client: u8, feature: u8) -> Option<u8>
        requires client { client < 8 }
        requires feature { feature < 4 }
        ensures { result ≡ fixed_at self.now client feature }
    {
        let fixed = &self.fixed[usize::from(client)];
        fixed[usize::from(feature)]
    }

    /// Fixes a client's feature to a value.
    fn placed(&self, client: u8, feature: u8, value: u8) -> Choice
        requires client { client < 8 }
        requires feature { feature < 4 }
        requires value { value < values_of feature }
        ensures { result ≡ choices.with_fixed self.now client feature value }
    {
        let mut fixed = self.fixed;
        let row = &mut fixed[usize::from(client)];
        row[usize::from(feature)] = Some(value);
        Choice { fixed }
    }

    /// Fixes another feature, 0..3, of a client, 0..7, which must not be fixed yet. The value must be one of
    /// the feature's.
    pub fn with(&self, client: u8, feature: u8, value: u8) -> Choice
        requires client { client < 8 }
        requires feature { feature < 4 }
        requires value { value < values_of feature }
        requires free { fixed_at self.now client feature ≡ None }
        ensures value { result ≡ choices.with_fixed self.now client feature value }
        ensures left { choices.chosen result ≡ narrowed (choices.chosen self.now) client feature value }
        ensures count { choices.fixed_count result ≡ choices.fixed_count self.now + 1 }
    {
        // The laws need the choice's form, which is known once the choice is read.
        let _fixed = &self.fixed;
        self.placed(client, feature, value)
    }
}
