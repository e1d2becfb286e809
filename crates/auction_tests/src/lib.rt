//! Tests of the public calls on books, auctions, cash, bid strings and made games: worked rows, one after another.
#![tactic(auto)]

#[cfg(test)]
mod cash;
#[cfg(test)]
mod flights;
#[cfg(test)]
mod hotels;
#[cfg(test)]
mod replies;
#[cfg(test)]
mod texts;
#[cfg(test)]
mod tickets;
