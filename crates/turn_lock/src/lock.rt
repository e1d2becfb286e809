ghost use Rattle.std.specs.Prelude.{◌≡◌, ℕ, ◌+◌, ◌<◌, ◌≤◌, [], ◌∷◌, ◌++◌, length, None, Some};
ghost use Rattle.turn_lock.specs.Part.{part};
ghost use Rattle.turn_lock.specs.{own_view, ticketed, with_pass, next_pass, AddsEntry, Took};

use crate::board_word::{pack, unpack};
use crate::kept::Kept;
use crate::own_seat::OwnSeat;
use crate::pass::Pass;
use crate::steps::{Draw, JoinPass, Peek, Publish, SplitOff, TryTurn};
use crate::view::{TurnRule, View};
use atomic_table::{Seat, Table};
use crossbeam_utils::Backoff;
use std::alloc::Global;
use std::snapshot::Snapshot;
use std::sync::Wait;
use std::thread;
use std::time::{Clock, Duration};
use tac_base::limits::CALLERS;
use tac_base::{Board, Caller, Memory};

/// A waiting caller sleeps once it has polled the board this many times.
const LOOKS: u32 = 64;

/// A state at which callers take turns. In its table, word 0 issues tickets, word 1 is the board, and the one slot holds the state.
#[derive(Drop)]
pub struct TurnLock<S: Kept> {
    table: Table<S, View<S, S::Setup, S::Entry>, Snapshot<S>, TurnRule<S>, Global>,
    own: OwnSeat<View<S, S::Setup, S::Entry>>,
    ghost sizes: { (table.shared.table_id.words ≡ 2) × (table.shared.table_id.slots ≡ 1) },
    ghost its_own: { (own.badge.table_id ≡ table.shared.table_id) × (own.badge.id ≡ 0) × (length own.badge.views ≡ 1) },
}

impl<S: Kept> TurnLock<S> {
    /// Draws a ticket.
    fn draw(&self, seat: &mut Seat<S, View<S, S::Setup, S::Entry>>) -> u64
        requires own { seat.old.table_id ≡ self.now.table.shared.table_id }
        requires rests { (seat.old.me.0.live ≡ 1) × (seat.old.me.0.waits ≡ 0) × (seat.old.me.1 ≡ []) }
        ensures own { (seat.new.table_id ≡ seat.old.table_id) × (seat.new.id ≡ seat.old.id) }
        ensures view { seat.new.me ≡ (ticketed seat.old.me.0 result, []) }
    {
        self.table.shared.fetch_add::<Draw>(seat, 0, 1)
    }

    /// Polls the board until its count equals the ticket. That same read takes the state.
    fn wait<R: Wait + Clock>(
        &self,
        rt: &R,
        seat: &mut Seat<S, View<S, S::Setup, S::Entry>>,
        ticket: u64,
    )
        requires own { seat.old.table_id ≡ self.now.table.shared.table_id }
        requires waits { (seat.old.me.0.live ≡ 1) × (seat.old.me.0.waits ≡ 1) × (seat.old.me.0.ticket ≡ ticket)
            × (seat.old.me.0.held ≡ None) × (seat.old.me.1 ≡ []) }
        ensures own { (seat.new.table_id ≡ seat.old.table_id) × (seat.new.id ≡ seat.old.id) }
        ensures took { Took S.setup S.history S.caller_of seat.old.me seat.new.me }
    {
        let backoff = Backoff::new();
        let mut looks = 0;
        for _ in rt.forever() {
            let found = self.table.shared.load::<TryTurn<S>>(seat, 1);
            if found % (1 << 24) == ticket {
                break;
            }
            backoff.spin();
            looks += 1;
            if looks == LOOKS {
                looks = 0;
                thread::sleep(rt, Duration::from_micros(1));
            }
        }
    }

    /// Makes the call on the state, and returns the state to its slot in the swap that publishes the new board.
    fn act(
        &self,
        seat: &mut Seat<S, View<S, S::Setup, S::Entry>>,
        caller: Caller,
        call: &S::Call,
    ) -> (u32, S::Reply)
        requires own { seat.old.table_id ≡ self.now.table.shared.table_id }
        requires live { (seat.old.me.0.live ≡ 1) × (seat.old.me.0.caller ≡ caller) }
        requires held { (x : S) × (seat.old.me.1 ≡ (0, x) ∷ []) × (seat.old.me.0.held ≡ Some (S.setup x, S.history x))
            × (part S.caller_of (S.history x) caller ≡ seat.old.me.0.mine) }
        requires room { length seat.old.me.0.mine < S.cap caller }
        requires fit { S.fit caller call.now }
        ensures own { (seat.new.table_id ≡ seat.old.table_id) × (seat.new.id ≡ seat.old.id) }
        ensures entry { AddsEntry S.Kept seat.old.me seat.new.me caller call.now result }
    {
        let shared = &self.table.shared;
        let state = seat.slot_mut(shared, 0);
        let reply = state.act(caller, call);
        let board = state.board();
        shared.swap::<Publish<S>>(seat, 1, pack(&board));
        (board.count - 1, reply)
    }

    /// Makes the pass of the next caller.
    fn split_off(&mut self, caller: Caller, limit: u32) -> Pass<S>
        requires next { (caller ≡ (own_view self.old.own.badge.views).passes) × (caller < CALLERS) }
        requires limit { limit ≤ S.cap caller }
        ensures own { (self.new.table ≡ self.old.table) × (self.new.own.badge.views ≡ with_pass (own_view self.old.own.badge.views) ∷ []) }
        ensures pass { (result.seat.table_id ≡ self.old.table.shared.table_id) × (result.caller ≡ caller) × (result.left ≡ limit)
            × (result.seat.me.0 ≡ next_pass (own_view self.old.own.badge.views)) }
    {
        let TurnLock { table, own } = self;
        let mut own_seat = own.take();
        let seat = table.shared.split_seat::<SplitOff>(&mut own_seat);
        *own = OwnSeat::put(own_seat);
        Pass {
            seat,
            caller,
            left: limit,
        }
    }
}

impl<S: Kept> TurnLock<S> {
    ghost use Rattle.std.specs.Prelude.{IfOk, slice_index, vec_len};
    ghost use Rattle.turn_lock.specs.TurnRule.{AreKnown};
    ghost use Rattle.turn_lock.specs.Passes.{lock_of, caller_of, turns_left, made_by, noted_by, seen_by, returned_by, lock_id, start_of, passes_of, returned_to, AreFreshPasses, GetsEntry};

    /// Returns a lock for a state without history, and one pass for each of 1 to 9 limits. Pass `i` belongs to caller `i` and allows as
    /// many calls as limit `i`. If a memory allocation fails, it returns `Memory` and drops the state.
    pub fn begin(
        alloc: Global,
        state: S,
        limits: &[u32],
    ) -> Result<(TurnLock<S>, Vec<Pass<S>>), Memory>
        requires limits { (1 ≤ length limits.now) × (length limits.now ≤ CALLERS) }
        requires empty { S.history state ≡ [] }
        requires caps { (i : ℕ) → i < length limits.now → slice_index limits.now i ≤ S.cap i }
        ensures setup { IfOk result (λ r. start_of r.0 ≡ state) }
        ensures lock { IfOk result (λ r. (passes_of r.0 ≡ length limits.now) × (returned_to r.0 ≡ [])) }
        ensures passes { IfOk result (λ r. (vec_len r.1 ≡ length limits.now) × AreFreshPasses (lock_id r.0) (slice_index limits.now) r.1.items) }
    {
        let mut passes = Vec::with_capacity(alloc, limits.len())?;
        let mut slots = Vec::with_capacity(alloc, 1)?;
        let key = Snapshot::of(&state);
        let word = pack(&state.board());
        slots.push_reserved(state);
        let Ok((table, own_seat)) = Table::new(alloc, &[0, word], slots, &key) else {
            return Err(Memory);
        };
        let mut lock = TurnLock {
            table,
            own: OwnSeat::put(own_seat),
        };
        for i in 0..limits.len() {
            let caller = Caller::new(i as u8).unwrap();
            let pass = lock.split_off(caller, limits[i]);
            passes.push_reserved(pass);
        }
        Ok((lock, passes))
    }

    /// Takes a turn: waits for it if necessary, makes the call on the state, and returns the position of its entry and the reply. The
    /// position is not below what the pass had seen. The entry follows as many entries as its position says; with it, they are legal.
    pub fn call<R: Wait + Clock>(
        &self,
        rt: &R,
        pass: &mut Pass<S>,
        call: &S::Call,
    ) -> (u32, S::Reply)
        requires own { lock_of pass.old ≡ lock_id self.now }
        requires left { 1 ≤ turns_left pass.old }
        requires fit { S.fit (caller_of pass.old) call.now }
        ensures own { (lock_of pass.new ≡ lock_of pass.old) × (caller_of pass.new ≡ caller_of pass.old)
            × (turns_left pass.new + 1 ≡ turns_left pass.old) × (noted_by pass.new ≡ noted_by pass.old) }
        ensures entry { GetsEntry (start_of self.now) pass.old pass.new call.now result }
        ensures seen { (seen_by pass.old ≤ result.0) × (seen_by pass.new ≡ result.0 + 1) }
    {
        let ticket = self.draw(&mut pass.seat);
        self.wait(rt, &mut pass.seat, ticket);
        let answer = self.act(&mut pass.seat, pass.caller, call);
        pass.left -= 1;
        answer
    }

    /// Returns the board of the history so far, which is not shorter than what the pass had seen. It does not wait.
    pub fn peek(&self, pass: &mut Pass<S>) -> Board
        requires own { lock_of pass.old ≡ lock_id self.now }
        ensures own { (lock_of pass.new ≡ lock_of pass.old) × (caller_of pass.new ≡ caller_of pass.old)
            × (turns_left pass.new ≡ turns_left pass.old) × (made_by pass.new ≡ made_by pass.old) }
        ensures note { noted_by pass.new ≡ noted_by pass.old ++ (result.count, result) ∷ [] }
        ensures seen { (seen_by pass.old ≤ result.count) × (seen_by pass.new ≡ result.count) }
    {
        let word = self.table.shared.load::<Peek>(&mut pass.seat, 1);
        unpack(word)
    }

    /// Takes back a pass.
    pub fn take_back(&mut self, pass: Pass<S>)
        requires own { lock_of pass ≡ lock_id self.old }
        ensures same { (lock_id self.new ≡ lock_id self.old) × (start_of self.new ≡ start_of self.old) × (passes_of self.new ≡ passes_of self.old) }
        ensures returned { returned_to self.new ≡ returned_to self.old ++ returned_by pass ∷ [] }
    {
        let Pass { seat, .. } = pass;
        let TurnLock { table, own } = self;
        let mut keeper = own.take();
        table.shared.join_seat::<JoinPass>(&mut keeper, seat);
        *own = OwnSeat::put(keeper);
    }

    /// Returns the state after all passes are back. Its history is legal and has exactly the calls of the passes.
    pub fn close(self) -> S
        requires all_back { length (returned_to self) ≡ passes_of self }
        ensures setup { S.setup result ≡ S.setup (start_of self) }
        ensures legal { S.legal (S.setup result) (S.history result) }
        ensures known { AreKnown (S.board (S.setup result)) S.caller_of (S.history result) (returned_to self) }
        ensures nobody_else { (c : ℕ) → passes_of self ≤ c → part S.caller_of (S.history result) c ≡ [] }
    {
        let TurnLock { table, own } = self;
        let mut closed = table.close_with(own.into_seat());
        let state = closed.take(0);
        closed.free();
        state
    }
}
