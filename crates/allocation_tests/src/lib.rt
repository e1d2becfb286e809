//! Tests of the public calls on packages, certificates, prices and best allocations: worked rows, one after another.
#![tactic(auto)]

#[cfg(test)]
mod accounts;
#[cfg(test)]
mod allocations;
#[cfg(test)]
mod bounds;
#[cfg(test)]
mod splits;
