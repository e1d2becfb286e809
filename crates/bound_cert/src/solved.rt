use crate::trees::Cert;
use packages::Package;

/// A best allocation, and a certificate that no feasible allocation is worth more.
#[derive(Debug, Drop)]
pub struct Solved {
    /// For clients 0..7.
    pub allocation: [Package; 8],
    /// What the packages are worth to the clients together, 0..14000 dollars.
    pub total: u32,
    pub cert: Cert,
}
