//! The linear relaxation of an account's allocation problem, in which clients can have fractions of packages. The simplex solves it with
//! columns generated on demand; it can be narrowed feature by feature, and its prices rounded to whole dollars.
#![tactic(auto)]

mod branching;
mod charges;
mod columns;
mod dual_simplex;
mod features;
mod primal_simplex;
mod relaxing;
mod rounding;
mod shares;
mod splits;
mod tableau;
mod worth_table;

pub use relaxing::Relaxation;
pub use splits::{Split, SplitRule};
pub use worth_table::WorthTable;
