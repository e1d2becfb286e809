// A game in progress.
ghost use Rattle.std.specs.Prelude.{◌≡◌, ℕ, ◌<◌, ◌≤◌, [], ◌∷◌, ◌++◌, List, length, map, IfOk, IfSome};
ghost use Rattle.script_run.specs.{board, Entry, cap, entries_of, part, cash_cap, cash_total, due_post, IsFit, all_goods, setup_of, opening, past_at, entry_at, called, reading_of, closed_of, BeginsTick};
ghost use Rattle.auction_core.specs.Struck.{struck_of};

use auction_core::{Auction, Closed, Struck};
use game_text::Game;
use std::alloc::Global;
use std::marker::Model;
use tac_base::limits::{GOODS, TICKS};
use tac_base::{Agent, Board, Call, Caller, Good, Memory, Reply, Tick};
use trade_ledger::{CashBook, CashCall};
use turn_lock::Kept;

/// A game with its 28 auctions, its cash book, and the number of ticks made.
#[derive(Drop)]
pub(crate) struct OpenGame<'a> {
    game: &'a Game,
    auctions: Vec<Auction>,
    cash: CashBook,
    ticks: u8,
}

impl<'a> Model for OpenGame<'a> {
    ghost use Rattle.script_run.specs.OpenGames.{SeenGame, state_of, IsOpen};

    ghost Value = { SeenGame };

    ghost view = { λ g. record { game = g.game.now; state = state_of g.auctions.items g.cash g.ticks } };

    ghost invariant = { λ g. IsOpen g.game.now g.auctions.items g.ticks };
}

/// Returns the good with this number.
fn good_of(number: u8) -> Good
    requires { number ≤ 27 }
    ensures { result ≡ number }
{
    Good::new(number).unwrap()
}

/// Opens the auctions of a game, before any call.
fn all_auctions(alloc: Global, game: &Game) -> Result<Vec<Auction>, Memory>
    ensures { IfOk result (λ auctions. auctions.items ≡ map (λ good. record { setup = setup_of good game.now; history = [] }) all_goods) }
{
    let mut auctions = Vec::with_capacity(alloc, usize::from(GOODS))?;
    for number in 0..GOODS {
        let auction = Auction::begin(alloc, good_of(number), game)?;
        auctions.push_reserved(auction);
    }
    Ok(auctions)
}

/// Posts what the trades of an entry gave each party, if it has trades.
fn post(cash: &mut CashBook, caller: Caller, good: Good, position: u32, struck: &Struck)
    requires { length (part (λ e. e.caller) cash.old caller) < cash_cap caller }
    ensures { (e : Entry) → e.caller ≡ caller → struck.now ≡ struck_of e → cash.new ≡ cash.old ++ due_post good position e }
{
    if struck.trades == 0 {
        return;
    }
    cash.act(
        caller,
        &CashCall::Post {
            good,
            position,
            nets: struck.nets,
        },
    );
}

impl<'a> OpenGame<'a> {
    /// Opens the game, before the first call.
    pub(crate) fn begin(alloc: Global, game: &'a Game) -> Result<OpenGame<'a>, Memory>
        ensures { IfOk result (λ begun. (begun.game ≡ game.now) × (begun.state ≡ opening)) }
    {
        let auctions = all_auctions(alloc, game)?;
        let cash = CashBook::begin(alloc)?;
        Ok(OpenGame {
            game,
            auctions,
            cash,
            ticks: 0,
        })
    }

    /// The game.
    pub(crate) fn game(&self) -> &'a Game
        ensures { result.now ≡ self.now.game }
    {
        self.game
    }

    /// Makes a call of a caller that has calls left, and its post if it has trades. Returns its position and its reply.
    pub(crate) fn call(&mut self, caller: Caller, good: Good, call: &Call) -> (u32, Reply)
        requires fit { IsFit call.now }
        requires room { entries_of (past_at self.old.state.pasts good) caller < cap caller }
        requires cash_room { length (part (λ e. e.caller) self.old.state.cash caller) < cash_cap caller }
        ensures game { self.new.game ≡ self.old.game }
        ensures state { self.new.state ≡ called self.old.game caller good call.now self.old.state }
        ensures position { result.0 ≡ length (past_at self.old.state.pasts good) }
        ensures reply { result.1 ≡ (entry_at self.old.game self.old.state.pasts caller good call.now).reply }
    {
        let auction = &mut self.auctions[usize::from(good.get())];
        let position = auction.len();
        let struck = auction.act(caller, call);
        post(&mut self.cash, caller, good, position, &struck);
        (position, struck.reply)
    }

    /// Makes a reading of an agent that has readings left. Returns its position and the agent's cash.
    pub(crate) fn read(&mut self, agent: Agent) -> (u32, i64)
        requires { length (part (λ e. e.caller) self.old.state.cash agent) < cash_cap agent }
        ensures game { self.new.game ≡ self.old.game }
        ensures pasts { self.new.state.pasts ≡ self.old.state.pasts }
        ensures cash { self.new.state.cash ≡ self.old.state.cash ++ reading_of self.old.state.cash agent ∷ [] }
        ensures ticks { self.new.state.ticks ≡ self.old.state.ticks }
        ensures position { result.0 ≡ length self.old.state.cash }
        ensures dollars { result.1 ≡ cash_total self.old.state.cash agent }
    {
        let position = self.cash.board().count;
        let dollars = self.cash.total(agent.party());
        self.cash.act(agent.caller(), &CashCall::Read { agent });
        (position, dollars)
    }

    /// The board of the auction of a good.
    pub(crate) fn quote(&self, good: Good) -> Board
        ensures { result ≡ board (setup_of good self.now.game).rules (past_at self.now.state.pasts good) }
    {
        self.auctions[usize::from(good.get())].board()
    }

    /// The number of ticks made.
    pub(crate) fn ticks(&self) -> u8
        ensures value { result ≡ self.now.state.ticks }
        ensures few { result ≤ TICKS }
    {
        self.ticks
    }

    /// Begins the next tick, if one is left.
    pub(crate) fn begin_tick(&mut self) -> Option<Tick>
        ensures game { self.new.game ≡ self.old.game }
        ensures pasts { self.new.state.pasts ≡ self.old.state.pasts }
        ensures cash { self.new.state.cash ≡ self.old.state.cash }
        ensures tick { BeginsTick self.old.state.ticks self.new.state.ticks result }
    {
        if self.ticks >= TICKS {
            return None;
        }
        self.ticks += 1;
        Tick::new(self.ticks).ok()
    }

    /// Returns the histories, once all calls are made.
    pub(crate) fn close(self) -> Closed
        ensures { result ≡ closed_of self.entry.game self.entry.state }
    {
        Closed {
            auctions: self.auctions,
            cash: self.cash,
        }
    }
}
