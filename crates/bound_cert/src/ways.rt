use packages::{Narrowing, Package, feature_value};

/// The splits above a part of a certificate, last one first.
#[derive(Clone, Copy)]
pub enum Way<'a> {
    /// No split: every package is left to every client.
    Start,
    /// A client, and the value of a feature to which its packages are narrowed, with the splits before it.
    Turn {
        client: u8,
        feature: u8,
        value: u8,
        before: &'a Way<'a>,
    },
}

impl Narrowing for Way<'_> {
    ghost use Rattle.bound_cert.specs.Ways.{left_by};

    ghost left = { left_by };

    fn keeps(&self, client: usize, package: &Package) -> bool {
        match self {
            Way::Start => true,
            Way::Turn {
                client: other,
                feature,
                value,
                before,
            } => {
                (client != usize::from(*other) || feature_value(package, *feature) == *value)
                    && before.keeps(client, package)
            }
        }
    }
}
