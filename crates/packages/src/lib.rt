//! Packages: what a client's trip uses and is worth, the list of all trips, totals over eight clients, and bounds that prices
//! give for every allocation.
#![tactic(auto)]

mod allocations;
mod bounds;
mod costs;
mod features;
mod goods_used;
mod listing;
mod prices;
mod travel_packages;
mod utilities;

pub use allocations::{allocation_worth, is_enough, is_used_up};
pub use bounds::{Narrowing, leaf_bound, stock, stock_value};
pub use costs::cost;
pub use features::{feature_value, value_count};
pub use goods_used::uses;
pub use listing::package;
pub use prices::Prices;
pub use travel_packages::Package;
pub use utilities::utility;
