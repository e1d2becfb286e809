ghost use Rattle.std.specs.Prelude.{◌≡◌, ◌-◌, [], pos, map, slice_index_or};
ghost use Rattle.tac_base.specs.Kinds.{kind_of};
ghost use Rattle.auction_core.specs.Setups as setups;
ghost use Rattle.auction_core.specs.{setup_of, endow_by, kind_by, AreInRange, AreEndowed, held_by};

use auction_rules::Rules;
use game_text::Game;
use std::marker::Model;
use tac_base::{Good, Kind};

/// What is fixed for an auction before its first call: its good, and what the game defines for that good. Contracts see the setup of
/// the rules.
#[derive(Debug, Drop)]
pub struct AuctionSetup {
    pub(crate) good: Good,
    pub(crate) rules: Rules,
    /// How many units each agent has at the start.
    endow: [i32; 8],
}

impl Model for AuctionSetup {
    ghost use Rattle.auction_rules.specs.Setup.{Setup};

    ghost Value = { Setup };

    ghost view = { λ t. record { good = t.good; rules = t.rules; endow = t.endow } };
}

/// Returns the rules of a good.
fn rules_by(good: Good, game: &Game) -> Rules
    ensures value { result ≡ setups.rules_by game.now good (kind_of good) }
    ensures kind { kind_by result ≡ kind_of good }
    ensures range { AreInRange result }
{
    match good.kind() {
        Kind::Flight => {
            let flight = &game.flights[usize::from(good.get())];
            Rules::Flight {
                first: flight.first,
                bound: flight.bound,
            }
        }
        Kind::Hotel => Rules::Hotel {
            rooms: game.rooms[usize::from(good.get() - 8)],
            live: game.live,
        },
        Kind::Ticket => Rules::Tickets,
    }
}

/// Returns how many units of a ticket each agent has at the start.
fn ticket_endowments(good: Good, game: &Game) -> [i32; 8]
    requires { kind_of good ≡ Kind.Ticket }
    ensures value { result ≡ map (λ tickets. pos (slice_index_or tickets (good - 16) 0)) game.now.endow }
    ensures few { AreEndowed result }
{
    let place = usize::from(good.get() - 16);
    let mut held = [0; 8];
    for (agent, tickets) in game.endow.iter().enumerate() {
        held[agent] = i32::from(tickets[place]);
    }
    held
}

/// Returns how many units of a good each agent has at the start.
fn endowments(good: Good, game: &Game) -> [i32; 8]
    ensures value { result ≡ endow_by game.now good (kind_of good) }
    ensures few { AreEndowed result }
{
    match good.kind() {
        Kind::Ticket => ticket_endowments(good, game),
        _ => [0; 8],
    }
}

impl AuctionSetup {
    /// Returns the setup that a game defines for a good.
    pub(crate) fn new(good: Good, game: &Game) -> AuctionSetup
        ensures value { result ≡ setup_of good game.now }
        ensures kind { kind_by result.rules ≡ kind_of good }
        ensures range { AreInRange result.rules }
        ensures few { AreEndowed result.endow }
    {
        AuctionSetup {
            good,
            rules: rules_by(good, game),
            endow: endowments(good, game),
        }
    }

    /// Returns what the parties hold at the start: the agents, and then the house, which has nothing.
    pub(crate) fn holdings(&self) -> [i32; 9]
        ensures { result ≡ held_by self.now [] }
    {
        let mut held = [0; 9];
        held[..8].copy_from_slice(&self.endow);
        held
    }
}
