ghost use Rattle.bound_cert.specs.{IsCertificate, tree_of};

use packages::Prices;

/// A part of a certificate. This project defines that it consists of prices and splits.
#[derive(Debug, Drop)]
pub enum CertNode {
    /// Prices that bound what is left at this point.
    Leaf(Prices),
    /// A client, 0..7, a feature, 0..3, and a child for each value of the feature: 21 for the trip, 5 for a night.
    Split {
        client: u8,
        feature: u8,
        children: Vec<CertNode>,
    },
}

/// A certificate, at most 32 splits deep.
#[derive(Debug, Drop)]
pub struct Cert {
    pub root: CertNode,
    ghost fits: { IsCertificate (tree_of root) },
}
