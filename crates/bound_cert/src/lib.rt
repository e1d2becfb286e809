//! Certificates, which are trees of splits and prices that prove that no feasible allocation is worth more than a claim; and
//! the definition of a best allocation with its certificate.
#![tactic(auto)]

mod checking;
mod faults;
mod node_lines;
mod printing;
mod reading;
mod solved;
mod trees;
mod ways;

pub use checking::check;
pub use faults::CertFault;
pub use printing::print_cert;
pub use reading::read_cert;
pub use solved::Solved;
pub use trees::{Cert, CertNode};
