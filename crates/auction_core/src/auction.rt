ghost use Rattle.std.specs.Prelude.{All, ◌≡◌, ◌+◌, ◌<◌, ◌≤◌, ◌++◌, [], ◌∷◌, Some, length, map, reverse, slice_get, IfOk, option_copied};
ghost use Rattle.auction_core.specs.{IsHolding, Legal, entry_of, setup_of, IsHistory, IsToldInRange, IsShown, struck_of};
ghost use Rattle.auction_rules.specs.Effects as effects;

use crate::auction_setup::AuctionSetup;
use crate::book::Book;
use crate::effects::{apply_all, nets};
use crate::entries::{AuctionEntry, Struck};
use crate::order_book::OrderBook;
use crate::storing::{entry_at, part_of, store};
use game_text::Game;
use std::alloc::Global;
use std::marker::Model;
use tac_base::limits::AUCTION_ENTRIES;
use tac_base::{Board, Call, Caller, Entry, Fills, Good, Memory, Party, Trade};
use trade_ledger::GoodBook;
use turn_lock::Kept;

/// The most trades of a history: 16 for each entry, and those of a hotel's closing.
const TRADES: usize = 132_224;

/// The auction of one good with its whole history, and what each party holds of the good. Contracts see its setup and its history,
/// oldest entry first. It allocates all its memory when it is made.
#[derive(Debug, Drop)]
pub struct Auction {
    terms: AuctionSetup,
    book: Book,
    held: GoodBook,
    entries: Vec<Entry>,
    trades: Vec<Trade>,
}

impl Model for Auction {
    ghost use Rattle.std.specs.Prelude.{All, vec_capacity};
    ghost use Rattle.auction_core.specs.{AuctionHistory, IsAuctionSound, stored};

    ghost Value = { AuctionHistory };

    ghost view = { λ a. record { setup = a.terms; history = stored a.entries.items a.trades.items } };

    ghost invariant = { λ a. IsAuctionSound a.terms a.book a.held a.entries.items a.trades.items (vec_capacity a.entries) (vec_capacity a.trades) };
}

impl Auction {
    /// Returns the auction of a good in a game, in which nobody has called. After `Memory` nothing was made.
    pub fn begin(alloc: Global, good: Good, game: &Game) -> Result<Auction, Memory>
        ensures setup { IfOk result (λ auction. auction.setup ≡ setup_of good game.now) }
        ensures history { IfOk result (λ auction. auction.history ≡ []) }
    {
        let entries = Vec::with_capacity(alloc, AUCTION_ENTRIES as usize)?;
        let trades = Vec::with_capacity(alloc, TRADES)?;
        let terms = AuctionSetup::new(good, game);
        let book = Book::new(good, terms.rules);
        let held = GoodBook::new(terms.holdings());
        Ok(Auction {
            terms,
            book,
            held,
            entries,
            trades,
        })
    }

    /// Returns the auction's good.
    pub fn good(&self) -> Good
        ensures { result ≡ self.now.setup.good }
    {
        self.terms.good
    }

    /// Returns the number of entries, at most 8,256. The history is legal, a log can show each entry, and each reply is in an auction's range.
    pub fn len(&self) -> u32
        ensures value { result ≡ length self.now.history }
        ensures few { result ≤ AUCTION_ENTRIES }
        ensures legal { Legal self.now.setup self.now.history }
        ensures loggable { IsHistory self.now.setup.good self.now.history }
        ensures told { All (λ e. IsToldInRange e.reply) self.now.history }
    {
        self.entries.len() as u32
    }

    /// Returns the entry at a position, or `None` exactly if the position is past the end.
    pub fn entry(&self, position: u32) -> Option<&Entry>
        ensures { IsShown self.now.history position (option_copied result) }
    {
        entry_at(&self.entries, position)
    }

    /// Returns the trades of the entry at a position, where there must be one.
    pub fn trades_of(&self, position: u32) -> &[Trade]
        requires { position < length self.now.history }
        ensures { slice_get (map (λ e. e.trades) self.now.history) position ≡ Some result.now }
    {
        let entry = &self.entries[position as usize];
        part_of(
            &self.trades,
            entry.first_trade as usize,
            usize::from(entry.trades),
        )
    }

    /// Returns how many units of the good the party holds, including its endowment. A party that sells more than it has holds less than 0.
    pub fn holding(&self, party: Party) -> i32
        ensures value { result ≡ effects.holding self.now.setup (reverse self.now.history) party }
        ensures range { IsHolding result }
    {
        self.held.holding(party)
    }
}

impl Kept for Auction {
    ghost use Rattle.auction_rules.specs.Board as boards;
    ghost use Rattle.auction_rules.specs.Legal as rules;
    ghost use Rattle.auction_core.specs.Calls.{IsFit};
    ghost use Rattle.auction_core.specs.Laws as laws;
    ghost use Rattle.turn_lock.specs.Part.{part};

    type Call = Call;

    type Reply = Struck;

    type Setup = AuctionSetup;

    type Entry = AuctionEntry;

    ghost setup = { λ a. a.setup };

    ghost history = { λ a. a.history };

    ghost legal = { Legal };

    ghost board = { λ setup history. boards.board setup.rules (reverse history) };

    ghost caller_of = { λ e. e.caller };

    ghost call_of = { λ e. e.call };

    ghost answer = { struck_of };

    ghost fit = { λ _ call. IsFit call };

    ghost cap = { rules.cap };

    /// Appends the entry that the rules give for the call, and returns what it records.
    fn act(&mut self, caller: Caller, call: &Call) -> Struck
        requires fit { IsFit call.now }
        requires room { length (part (λ e. e.caller) self.old.history caller) < rules.cap caller }
        ensures setup { self.new.setup ≡ self.old.setup }
        ensures legal { Legal self.new.setup self.new.history }
        ensures entry { (e : AuctionEntry) × (self.new.history ≡ self.old.history ++ e ∷ []) × (e.caller ≡ caller) × (e.call ≡ call.now) × (struck_of e ≡ result) }
        ensures appended { self.new.history ≡ self.old.history ++ entry_of self.old.setup (reverse self.old.history) caller call.now ∷ [] }
        ensures struck { result ≡ struck_of (entry_of self.old.setup (reverse self.old.history) caller call.now) }
        // The laws of the auctions.
        ensures quote { laws.KeepsQuote self.old self.new }
        ensures closed { laws.TradesWhileOpen self.old self.new }
        ensures sells { laws.SellsRooms self.old self.new }
        ensures sum { laws.KeepsSum self.old self.new }
        ensures parties { laws.HasNoSelfTrade self.new }
        ensures price { laws.KeepsPrice self.new }
        ensures paid { laws.NobodyOverpays self.new }
        ensures uncrossed { laws.IsUncrossed self.new }
    {
        let at = self.entries.len() as u32;
        let mut fills = Fills::new();
        let reply = self.book.act(&self.held, at, caller, call, &mut fills);
        let trades = fills.as_slice();
        apply_all(&mut self.held, trades);
        let struck = Struck {
            reply: reply.copy(),
            nets: nets(trades),
            trades: trades.len() as u8,
        };
        let call = call.copy();
        store(
            &mut self.entries,
            &mut self.trades,
            caller,
            call,
            reply,
            trades,
        );
        struck
    }

    fn board(&self) -> Board {
        self.book.board(self.entries.len() as u32)
    }
}
