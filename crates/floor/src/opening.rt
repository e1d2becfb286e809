//! Makes the passes lock by lock, and gives each caller its own.
ghost use Rattle.std.specs.Prelude.{◌≡◌, ℕ, [], length, map, replicate, All, IfOk, OnOk};
ghost use mathlib.Core.Option.{some};
ghost use lib.ListN.{get_elem?};
ghost use Rattle.floor.specs.{setup_of, cap, cash_cap, lock_id, start_of, passes_of, returned_to, with_each, desk_steps, AreDealt, AreFreshPasses, MakeDesk};

use crate::desk::Desk;
use crate::growing::add;
use crate::step_list::StepList;
use auction_core::Auction;
use game_text::Game;
use std::alloc::Global;
use tac_base::limits::{AGENT_CALLS, AGENT_CASH_ENTRIES, CALLERS, CLOCK_CALLS, CLOCK_CASH_ENTRIES};
use tac_base::{Good, Memory};
use trade_ledger::CashBook;
use turn_lock::{Pass, TurnLock};

/// The number of calls that each caller may make in an auction: the agents, and then the clock.
const CALLS: [u32; 9] = [
    AGENT_CALLS,
    AGENT_CALLS,
    AGENT_CALLS,
    AGENT_CALLS,
    AGENT_CALLS,
    AGENT_CALLS,
    AGENT_CALLS,
    AGENT_CALLS,
    CLOCK_CALLS,
];

/// The number of calls that each caller may make at the cash book: for an agent, a post for each of its auction
/// calls, and its readings; for the clock, a post for each of its calls.
const CASH_CALLS: [u32; 9] = [
    AGENT_CASH_ENTRIES,
    AGENT_CASH_ENTRIES,
    AGENT_CASH_ENTRIES,
    AGENT_CASH_ENTRIES,
    AGENT_CASH_ENTRIES,
    AGENT_CASH_ENTRIES,
    AGENT_CASH_ENTRIES,
    AGENT_CASH_ENTRIES,
    CLOCK_CASH_ENTRIES,
];

/// Returns an empty list of auction passes for each caller.
pub(crate) fn empty_hands(alloc: Global) -> Result<Vec<Vec<Pass<Auction>>>, Memory>
    ensures { IfOk result (λ hands. map (λ hand. hand.items) hands.items ≡ replicate CALLERS []) }
{
    let mut hands = Vec::new(alloc);
    for _ in 0..CALLERS {
        match add(&mut hands, Vec::new(alloc)) {
            Ok(()) => {}
            Err(e) => return Err(e),
        }
    }
    Ok(hands)
}

/// Gives each caller its pass for one lock.
fn deal(hands: &mut Vec<Vec<Pass<Auction>>>, passes: Vec<Pass<Auction>>) -> Result<(), Memory>
    requires { length hands.old.items ≡ length passes.items }
    ensures { OnOk result (map (λ hand. hand.items) hands.new.items ≡ with_each (map (λ hand. hand.items) hands.old.items) passes.items) }
{
    let mut caller = 0;
    for pass in passes {
        add(&mut hands[caller], pass)?;
        caller += 1;
    }
    Ok(())
}

/// Makes the lock of a good's auction, and gives each caller its pass.
pub(crate) fn open(
    alloc: Global,
    good: Good,
    game: &Game,
    hands: &mut Vec<Vec<Pass<Auction>>>,
) -> Result<TurnLock<Auction>, Memory>
    requires { length hands.old.items ≡ CALLERS }
    ensures start { IfOk result (λ lock. start_of lock ≡ record { setup = setup_of good game.now; history = [] }) }
    ensures passes { IfOk result (λ lock. (passes_of lock ≡ CALLERS) × (returned_to lock ≡ [])) }
    ensures dealt { IfOk result (λ lock. AreDealt (lock_id lock) cap (map (λ hand. hand.items) hands.old.items) (map (λ hand. hand.items) hands.new.items)) }
    ensures nine { OnOk result (length hands.new.items ≡ CALLERS) }
{
    let auction = Auction::begin(alloc, good, game)?;
    let (lock, passes) = TurnLock::begin(alloc, auction, &CALLS)?;
    deal(hands, passes)?;
    Ok(lock)
}

/// Makes the lock of the cash book, and its passes.
pub(crate) fn open_cash(alloc: Global) -> Result<(TurnLock<CashBook>, Vec<Pass<CashBook>>), Memory>
    ensures lock { IfOk result (λ r. (passes_of r.0 ≡ CALLERS) × (returned_to r.0 ≡ [])) }
    ensures passes { IfOk result (λ r. (length r.1.items ≡ CALLERS) × AreFreshPasses (lock_id r.0) cash_cap r.1.items) }
{
    let book = CashBook::begin(alloc)?;
    let (lock, passes) = TurnLock::begin(alloc, book, &CASH_CALLS)?;
    Ok((lock, passes))
}

/// Makes the callers' desks, in order, from their passes for the auctions and for the cash book.
pub(crate) fn seat(
    alloc: Global,
    hands: Vec<Vec<Pass<Auction>>>,
    passes: Vec<Pass<CashBook>>,
) -> Result<Vec<Desk>, Memory>
    requires lengths { length hands.items ≡ length passes.items }
    requires fit { (i : ℕ) (hand : _) (pass : _) → get_elem? hands.items i ≡ some hand → get_elem? passes.items i ≡ some pass → MakeDesk hand.items pass }
    ensures hands { IfOk result (λ desks. map (λ d. d.passes) desks.items ≡ hands.items) }
    ensures passes { IfOk result (λ desks. map (λ d. d.cash) desks.items ≡ passes.items) }
    ensures steps { IfOk result (λ desks. All (λ d. desk_steps d ≡ []) desks.items) }
{
    let mut desks = Vec::with_capacity(alloc, usize::from(CALLERS))?;
    let mut hands = hands.into_iter();
    for cash in passes {
        let hand = hands.next().unwrap();
        let desk = Desk {
            passes: hand,
            cash,
            readings: 0,
            steps: StepList::new(),
        };
        add(&mut desks, desk)?;
    }
    Ok(desks)
}
