ghost use Rattle.std.specs.Prelude.{◌≡◌, ◌≤◌, [], length, map, replicate, vec_capacity};
ghost use Rattle.floor.specs.Prelude.{clock, house, CALLERS, GOODS, all_goods, start_of, passes_of, returned_to};
ghost use Rattle.floor.specs.Keeping.{goods_of};

use crate::closing::{close_all, return_passes};
use crate::desk::Desk;
use crate::growing::add;
use crate::opening::{empty_hands, open, open_cash, seat};
use auction_core::{Auction, Closed};
use game_text::Game;
use std::alloc::Global;
use tac_base::limits::{CALLERS, GOODS};
use tac_base::{Good, Memory};
use trade_ledger::CashBook;
use turn_lock::TurnLock;

/// The 28 auctions of a game, in the order of goods, and its cash book, each under its own lock.
#[derive(Drop)]
pub struct Floor {
    pub(crate) auctions: Vec<TurnLock<Auction>>,
    pub(crate) cash: TurnLock<CashBook>,
    /// Memory reserved for the auctions when the floor closes.
    room: Vec<Auction>,
    ghost goods: { goods_of (map (λ lock. start_of lock) auctions.items) ≡ all_goods },
    ghost passes: { (map (λ lock. passes_of lock) auctions.items ≡ replicate GOODS CALLERS) × (passes_of cash ≡ CALLERS) },
    ghost returned: { (map (λ lock. returned_to lock) auctions.items ≡ replicate GOODS []) × (returned_to cash ≡ []) },
    ghost empty: { (room.items ≡ []) × (GOODS ≤ vec_capacity room) },
}

impl Floor {
    ghost use Rattle.std.specs.Prelude.{◌≡◌, ◌<◌, ◌≤◌, ℕ, [], ◌∷◌, Some, length, map, replicate, All, IfOk};
    ghost use mathlib.Core.Option.{some};
    ghost use lib.ListN.{get_elem?};
    ghost use Rattle.auction_rules.specs.Effects.{dollars};
    ghost use Rattle.auction_rules.specs.BookRules.{Legal};
    ghost use Rattle.auction_core.specs.ClosedGame.{all_goods};
    ghost use Rattle.auction_core.specs.Setups.{setup_of};
    ghost use Rattle.trade_ledger.specs.CashHistory.{IsLegalCash, cash_total};
    ghost use Rattle.trade_ledger.specs.BookPosts.{Matched, trades_of_all};
    ghost use Rattle.floor.specs.Desks.{IsNewDesk, setup_at};
    ghost use Rattle.floor.specs.Floors.{floor_ids, starts_of, AreDesksOf, AreAllDesksOf};
    ghost use Rattle.floor.specs.Closing.{IsBorneOut, TakesLawfulBids};

    /// Returns the floor of a game before any call, and its nine desks: the agents' in order, and then the clock's. It allocates all the
    /// memory of the game. After `Memory` it returns nothing.
    pub fn begin(alloc: Global, game: &Game) -> Result<(Floor, Vec<Desk>), Memory>
        ensures starts { IfOk result (λ r. starts_of r.0 ≡ map (λ good. record { setup = setup_of good game.now; history = [] }) all_goods) }
        ensures desks { IfOk result (λ r. AreDesksOf r.0 r.1.items) }
        ensures setups { IfOk result (λ r. All (λ d. (good : ℕ) → good < GOODS → setup_at d good ≡ Some (setup_of good game.now)) r.1.items) }
        ensures new_desks { IfOk result (λ r. (i : ℕ) (d : Desk) → get_elem? r.1.items i ≡ some d → IsNewDesk (floor_ids r.0) i d) }
    {
        let mut hands = empty_hands(alloc)?;
        let mut auctions = Vec::with_capacity(alloc, usize::from(GOODS))?;
        for number in 0..GOODS {
            let good = Good::new(number).unwrap();
            let lock = open(alloc, good, game, &mut hands)?;
            add(&mut auctions, lock)?;
        }
        let (cash, passes) = open_cash(alloc)?;
        let desks = seat(alloc, hands, passes)?;
        let room = Vec::with_capacity(alloc, usize::from(GOODS))?;
        let floor = Floor {
            auctions,
            cash,
            room,
        };
        Ok((floor, desks))
    }

    /// Closes the game once all its desks are back, in any order.
    pub fn close(self, desks: Vec<Desk>) -> Closed
        requires { AreAllDesksOf self desks.items }
        ensures setups { map (λ auction. auction.setup) result.auctions ≡ map (λ start. start.setup) (starts_of self) }
        ensures legal { All (λ auction. Legal auction.setup auction.history) result.auctions }
        ensures cash { IsLegalCash result.cash }
        ensures callers { All (λ e. e.caller ≤ clock) result.cash }
        ensures borne_out { All (λ d. IsBorneOut result d) desks.items }
        ensures matched { Matched (map (λ auction. auction.history) result.auctions) result.cash }
        ensures totals { (party : ℕ) → party ≤ house → cash_total result.cash party ≡ dollars (trades_of_all (map (λ auction. auction.history) result.auctions)) party }
        ensures taken { All TakesLawfulBids result.auctions }
    {
        let Floor {
            mut auctions,
            mut cash,
            room,
        } = self;
        for desk in desks {
            let Desk {
                passes,
                cash: pass,
                readings: _,
                steps: _,
            } = desk;
            return_passes(&mut auctions, passes);
            cash.take_back(pass);
        }
        Closed {
            auctions: close_all(auctions, room),
            cash: cash.close(),
        }
    }
}
