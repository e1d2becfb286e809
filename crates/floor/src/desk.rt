ghost use Rattle.std.specs.Prelude.{◌≡◌, ◌≤◌, map};
ghost use Rattle.floor.specs.Prelude.{clock, caller_of, turns_left, made_by, noted_by, seen_by};
ghost use Rattle.floor.specs.Keeping.{IsDeskKept, AreGoodsInOrder, AreListed};
ghost use Rattle.floor.specs.Steps.{calls_of_steps};

use crate::cash_turns::{post, read};
use crate::floor::Floor;
use crate::outcomes::{CashOutcome, Outcome};
use crate::step_list::StepList;
use auction_core::{Auction, Struck};
use std::sync::Wait;
use std::time::Clock;
use tac_base::limits::{AGENTS, CASH_READINGS, CLOCK_CALLS, CLOCK_CASH_ENTRIES};
use tac_base::{Agent, Board, Call, Caller, Good, Points, Reply, Tick};
use tac_io::Ticker;
use trade_ledger::CashBook;
use turn_lock::Pass;

/// One caller's access to all auctions of a floor and to its cash book. A desk records its own entries so far, and has posted the trades
/// of each.
#[derive(Drop)]
pub struct Desk {
    pub(crate) passes: Vec<Pass<Auction>>,
    pub(crate) cash: Pass<CashBook>,
    /// The number of cash readings so far.
    pub(crate) readings: u32,
    pub(crate) steps: StepList,
    ghost kept: { IsDeskKept (caller_of cash) (map (λ p. caller_of p) passes.items) (map (λ p. turns_left p) passes.items)
        (map (λ p. made_by p) passes.items) (turns_left cash) (made_by cash) readings },
    /// At each good, the positions of its entries rise, and agree with what it has seen there.
    pub ghost in_order: { AreGoodsInOrder (map (λ p. made_by p) passes.items) (map (λ p. noted_by p) passes.items) (map (λ p. seen_by p) passes.items) },
    /// Its list of calls agrees with its entries, good by good.
    pub ghost listed: { AreListed (map (λ p. made_by p) passes.items) (calls_of_steps steps.items) },
}

/// The index of a good's auction.
fn place(good: Good) -> usize
    ensures value { result ≡ good }
    ensures range { result ≤ 27 }
{
    usize::from(good.get())
}

impl Desk {
    ghost use Rattle.std.specs.Prelude.{◌≡◌, ◌+◌, ◌<◌, ◌≤◌, None, length, slice_index_or};
    ghost use Rattle.auction_core.specs.Calls.{IsFit};
    ghost use Rattle.tac_base.specs.declared.calls.Call.{Call};
    ghost use Rattle.auction_rules.specs.Legal.{cap};
    ghost use Rattle.turn_lock.specs.Passes.{turns_left};
    ghost use Rattle.floor.specs.Keeping.{HasPostedAll, count_entries};
    ghost use Rattle.floor.specs.Desks.{desk_ids, desk_caller, desk_entries, entries_at, desk_cash};
    ghost use Rattle.floor.specs.Floors.{floor_ids};
    ghost use Rattle.floor.specs.Answers.{IsSameDesk, IsCallAnswered, IsOutcome, TakesLawfulBid, IsCashOutcome, IsSeen, IsClockCall, IsStepTaken};
    ghost use Rattle.floor.specs.Steps.{Step, DueTaken, WaitsNoted, call_of_step};

    /// The desk's caller.
    pub fn caller(&self) -> Caller
        ensures { result ≡ desk_caller self.now }
    {
        self.cash.caller()
    }

    /// Makes a call at a good and posts the trades of its entry.
    fn call<R: Wait + Clock>(
        &mut self,
        rt: &R,
        floor: &Floor,
        good: Good,
        call: &Call,
    ) -> (u32, Reply)
        requires own { desk_ids self.old ≡ floor_ids floor.now }
        requires fit { IsFit call.now }
        requires left { length (entries_at self.old good) < cap (desk_caller self.old) }
        requires cash_left { 1 ≤ turns_left self.old.cash }
        ensures answered { IsCallAnswered self.old self.new good call.now result.0 result.1 }
    {
        let place = place(good);
        let lock = &floor.auctions[place];
        let (position, struck) = lock.call(rt, &mut self.passes[place], call);
        self.steps = self.steps.with_call(&good, call);
        post(rt, &floor.cash, &mut self.cash, good, position, &struck);
        let Struck { reply, .. } = struck;
        (position, reply)
    }

    /// Makes an agent's call at a good, if the agent has made fewer than 1024 calls there.
    fn ask<R: Wait + Clock>(&mut self, rt: &R, floor: &Floor, good: Good, call: &Call) -> Outcome
        requires own { desk_ids self.old ≡ floor_ids floor.now }
        requires agent { desk_caller self.old < AGENTS }
        requires fit { IsFit call.now }
        ensures outcome { IsOutcome self.old self.new good call.now result }
        ensures same { IsSameDesk self.old self.new }
        ensures posted { HasPostedAll (desk_entries self.new) (desk_cash self.new) }
    {
        if self.passes[place(good)].left() == 0 {
            return Outcome::Spent;
        }
        let (position, reply) = self.call(rt, floor, good, call);
        Outcome::At { position, reply }
    }

    /// Makes an agent's bid, which replaces its earlier bid there. It may wait for its turn, and posts the bid's trades before it
    /// returns. It returns `Spent` exactly if the desk has made 1024 calls there; then nothing changes.
    pub fn bid<R: Wait + Clock>(
        &mut self,
        rt: &R,
        floor: &Floor,
        good: Good,
        points: &Points,
    ) -> Outcome
        requires own { desk_ids self.old ≡ floor_ids floor.now }
        requires agent { desk_caller self.old < AGENTS }
        ensures outcome { IsOutcome self.old self.new good (Call.Bid points.now) result }
        ensures taken { TakesLawfulBid self.old self.new good points.now result }
        ensures same { IsSameDesk self.old self.new }
        ensures posted { HasPostedAll (desk_entries self.new) (desk_cash self.new) }
    {
        let call = Call::Bid(points.copy());
        self.ask(rt, floor, good, &call)
    }

    /// Withdraws an agent's bid; a hotel refuses. It may wait for its turn. It returns `Spent` as `bid` does.
    pub fn withdraw<R: Wait + Clock>(&mut self, rt: &R, floor: &Floor, good: Good) -> Outcome
        requires own { desk_ids self.old ≡ floor_ids floor.now }
        requires agent { desk_caller self.old < AGENTS }
        ensures outcome { IsOutcome self.old self.new good Call.Withdraw result }
        ensures same { IsSameDesk self.old self.new }
        ensures posted { HasPostedAll (desk_entries self.new) (desk_cash self.new) }
    {
        self.ask(rt, floor, good, &Call::Withdraw)
    }

    /// Reads an agent's own state. It may wait for its turn. It returns `Spent` as `bid` does.
    pub fn own<R: Wait + Clock>(&mut self, rt: &R, floor: &Floor, good: Good) -> Outcome
        requires own { desk_ids self.old ≡ floor_ids floor.now }
        requires agent { desk_caller self.old < AGENTS }
        ensures outcome { IsOutcome self.old self.new good Call.Own result }
        ensures same { IsSameDesk self.old self.new }
        ensures posted { HasPostedAll (desk_entries self.new) (desk_cash self.new) }
    {
        self.ask(rt, floor, good, &Call::Own)
    }

    /// Reads the agent's cash in dollars: the sum of its nets in the posts so far. A trade that another caller's call made may not be posted
    /// yet. It may wait for its turn. It returns `Spent` exactly if the desk has made 1024 readings; then nothing changes.
    pub fn cash<R: Wait + Clock>(&mut self, rt: &R, floor: &Floor) -> CashOutcome
        requires own { desk_ids self.old ≡ floor_ids floor.now }
        requires agent { desk_caller self.old < AGENTS }
        ensures outcome { IsCashOutcome self.old self.new result }
        ensures same { IsSameDesk self.old self.new }
        ensures posted { HasPostedAll (desk_entries self.new) (desk_cash self.new) }
    {
        if self.readings == CASH_READINGS {
            return CashOutcome::Spent;
        }
        let agent = Agent::new(self.cash.caller().get()).unwrap();
        let (position, dollars) = read(rt, &floor.cash, &mut self.cash, agent);
        self.readings += 1;
        CashOutcome::At { position, dollars }
    }

    /// Returns the current board of a good. The board counts no fewer entries than the desk had seen there. It does not wait.
    pub fn quote(&mut self, floor: &Floor, good: Good) -> Board
        requires own { desk_ids self.old ≡ floor_ids floor.now }
        ensures seen { IsSeen self.old self.new good result }
        ensures posted { HasPostedAll (desk_entries self.new) (desk_cash self.new) }
    {
        let place = place(good);
        floor.auctions[place].peek(&mut self.passes[place])
    }

    /// Records a step that is not a call; the given value determines it.
    fn take_step<X>(&mut self, _of: &X)
        ghost step: { Step }
        requires no_call { call_of_step step ≡ None }
        ensures taken { IsStepTaken self.old self.new step }
        ensures posted { HasPostedAll (desk_entries self.new) (desk_cash self.new) }
    {
        self.steps = self.steps.with();
    }

    /// Consumes the due of a tick, given by a ticker of this type, and records it as a step of the desk. Nothing else changes.
    pub fn take_due<T: Ticker>(&mut self, tick: Tick, due: T::Due)
        requires due { T.due_tick due ≡ tick }
        ensures taken { IsStepTaken self.old self.new (DueTaken T.mark tick) }
        ensures posted { HasPostedAll (desk_entries self.new) (desk_cash self.new) }
    {
        drop(due);
        self.take_step(&tick);
    }

    /// Records a ticker's waits so far, if they are known, as a step of the desk. Nothing else changes.
    pub fn note_waits<T: Ticker>(&mut self, ticker: &T)
        ensures noted { IsStepTaken self.old self.new (WaitsNoted (T.state ticker.now).waited) }
        ensures posted { HasPostedAll (desk_entries self.new) (desk_cash self.new) }
    {
        self.take_step(ticker);
    }

    /// Makes a call of the clock: a price update at one of the ticks 1..53, a publication or a closing. The clock makes at most 64 calls at a
    /// good, and 480 in all. It may wait for its turn, posts the trades before it returns, and returns the entry's position and reply.
    pub fn clock_call<R: Wait + Clock>(
        &mut self,
        rt: &R,
        floor: &Floor,
        good: Good,
        call: &Call,
    ) -> (u32, Reply)
        requires own { desk_ids self.old ≡ floor_ids floor.now }
        requires clock { desk_caller self.old ≡ clock }
        requires call { IsClockCall call.now }
        requires left { length (entries_at self.old good) < CLOCK_CALLS }
        requires all_left { count_entries (desk_entries self.old) < CLOCK_CASH_ENTRIES }
        ensures answered { IsCallAnswered self.old self.new good call.now result.0 result.1 }
        ensures posted { HasPostedAll (desk_entries self.new) (desk_cash self.new) }
    {
        self.call(rt, floor, good, call)
    }
}
