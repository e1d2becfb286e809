// The features of all packages.
ghost use Rattle.std.specs.Prelude.{◌≡◌, ◌+◌, ◌<◌, [], Some, slice_get};
ghost use Rattle.relaxation.specs.{Package, IsPackage, packages, feature_of, AreEntries, features_of};

use packages::{Package, feature_value, package};

/// The features of all packages.
#[derive(Clone, Copy)]
pub(crate) struct Features {
    /// For packages 0..392 and features 0..3.
    values: [[u8; 4]; 393],
    ghost are: { AreEntries features_of [] values },
}

impl Features {
    pub(crate) fn new() -> Features {
        Features { values: table() }
    }

    /// Returns the features of the package with a number, 0..392.
    fn of(&self, number: usize) -> &[u8; 4]
        requires { number < 393 }
        ensures { (p : Package) → slice_get packages number ≡ Some p → result.now ≡ features_of p }
    {
        &self.values[number]
    }

    /// Returns the value of a feature, 0..3, of the package with a number, 0..392.
    pub(crate) fn value_of(&self, number: usize, feature: usize) -> u8
        requires number { number < 393 }
        requires feature { feature < 4 }
        ensures value { (p : Package) → slice_get packages number ≡ Some p → result ≡ feature_of feature p }
        ensures range { result < 21 }
    {
        let values = self.of(number);
        values[feature]
    }

    /// Returns the trip's value of the package with a number, 0..392.
    pub(crate) fn trip_of(&self, number: usize) -> usize
        requires { number < 393 }
        ensures { result < 21 }
    {
        usize::from(self.value_of(number, 0))
    }

    /// Returns the night of a ticket type, 0..2, in the package with a number, 0..392.
    pub(crate) fn night_of(&self, number: usize, kind: usize) -> usize
        requires number { number < 393 }
        requires kind { kind < 3 }
        ensures { result < 5 }
    {
        usize::from(self.value_of(number, kind + 1))
    }
}

/// Returns the features of all packages, by number.
fn table() -> [[u8; 4]; 393]
    ensures { AreEntries features_of [] result }
{
    let mut values = [[0; 4]; 393];
    for number in 0..393 {
        if let Some(choice) = package(number) {
            values[usize::from(number)] = features_of(&choice);
        }
    }
    values
}

/// Returns the four features of a package.
fn features_of(package: &Package) -> [u8; 4]
    requires { IsPackage «package».now }
    ensures { result ≡ features_of «package».now }
{
    [
        feature_value(package, 0),
        feature_value(package, 1),
        feature_value(package, 2),
        feature_value(package, 3),
    ]
}
