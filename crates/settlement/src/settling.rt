// What each agent has at the end of a game.
ghost use Rattle.std.specs.Prelude.{◌≡◌, length, map, All};
ghost use Rattle.settlement.specs.{IsWithin, agents, holdings_of, cash_gained, settlement_of, AreHoldings};

use crate::gains::gain_of_game;
use auction_core::{Auction, Closed};
use std::marker::Model;
use tac_base::limits::GOODS;
use tac_base::{Agent, Party};

/// What each agent has at the end of a game. This project defines the ranges.
#[derive(Clone, Copy, Debug, PartialEq, Eq)]
pub struct Accounts {
    /// How many units of each good 0..27 each agent holds, -200000..200000; below 0 it is short of the good.
    pub holdings: [[i32; 28]; 8],
    /// The cash of each agent, earned less paid, in dollars, -1000000000000000..1000000000000000.
    pub cash: [i64; 8],
}

impl Model for Accounts {
    ghost use Rattle.settlement.specs.Settlement.{Settlement};
    ghost use Rattle.settlement.specs.SettledRanges.{IsSettlement};

    ghost Value = { Settlement };

    ghost view = { λ a. record { holdings = a.holdings; cash = a.cash } };

    ghost invariant = { λ a. IsSettlement (record { holdings = a.holdings; cash = a.cash }) };

    ghost inverse = { λ a. record { holdings = a.holdings; cash = a.cash } };
}

/// Returns how much a party holds of each good.
fn holdings_after(auctions: &[Auction], party: Party) -> [i32; 28]
    requires { length auctions.now ≡ GOODS }
    ensures value { result ≡ holdings_of auctions.now party }
    ensures range { AreHoldings result }
{
    let mut held = [0; 28];
    for (good, auction) in auctions.iter().enumerate() {
        held[good] = auction.holding(party);
    }
    held
}

/// Returns how much each agent holds of each good.
fn all_holdings(auctions: &[Auction]) -> [[i32; 28]; 8]
    requires { length auctions.now ≡ GOODS }
    ensures value { result ≡ map (holdings_of auctions.now) agents }
    ensures range { All AreHoldings result }
{
    let mut holdings = [[0; 28]; 8];
    for (number, agent) in Agent::all().iter().enumerate() {
        holdings[number] = holdings_after(auctions, agent.party());
    }
    holdings
}

/// Returns what each agent has gained.
fn all_cash(auctions: &[Auction]) -> [i64; 8]
    requires { length auctions.now ≡ GOODS }
    ensures value { result ≡ map (cash_gained auctions.now) agents }
    ensures range { All (IsWithin 1000000000000000) result }
{
    let mut cash = [0; 8];
    for (number, agent) in Agent::all().iter().enumerate() {
        cash[number] = gain_of_game(auctions, agent.party());
    }
    cash
}

/// Computes from the trades of the 28 auctions how many units of each good each agent holds, -200000..200000, and its cash in
/// dollars, -1000000000000000..1000000000000000.
pub fn settle_auctions(auctions: &[Auction]) -> Accounts
    requires { length auctions.now ≡ GOODS }
    ensures { result ≡ settlement_of auctions.now }
{
    Accounts {
        holdings: all_holdings(auctions),
        cash: all_cash(auctions),
    }
}

/// Settles a game that accepts no more calls. It does not read the cash book.
pub fn settle(closed: &Closed) -> Accounts
    ensures { result ≡ settlement_of closed.now.auctions }
{
    settle_auctions(&closed.auctions)
}
