//! Tests of the public calls on the outside, requests, the clock, desks, sessions and games over links: worked rows, one after another.
#![tactic(auto)]

#[cfg(test)]
mod clocks;
#[cfg(test)]
mod desks;
#[cfg(test)]
mod floors;
#[cfg(test)]
mod outside;
#[cfg(test)]
mod served_games;
#[cfg(test)]
mod sessions;
