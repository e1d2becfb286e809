// The cash book under a lock: callers in turn, and callers at once.
ghost use Rattle.std.specs.Prelude.{◌≡◌, ℕ, ◌+◌, ◌<◌, ◌≤◌, [], length, All, IfOk, slice_index};
ghost use Rattle.std.specs.Thread.{IsSync};
ghost use Rattle.turn_lock.specs.Passes.{lock_of, lock_id, caller_of, turns_left, passes_of, returned_to};
ghost use Rattle.trade_ledger.specs.CashHistory.{cash_cap};

use std::alloc::{AllocError, Global};
use std::sync::Wait;
use std::test::Fail;
use std::thread::{Threads, join};
use std::time::Clock;
use tac_base::{Agent, Good, Memory, Nets, Party};
use trade_ledger::{CashBook, CashCall, CashReply};
use turn_lock::{Pass, TurnLock};

/// A lock at a new book, with one pass of agent 0 and one of agent 1.
fn begin_two(
    alloc: Global,
    first: u32,
    second: u32,
) -> Result<(TurnLock<CashBook>, Pass<CashBook>, Pass<CashBook>), Memory>
    requires { (first ≤ 29696) × (second ≤ 29696) }
    ensures first { IfOk result (λ r. (lock_of r.1 ≡ lock_id r.0) × (caller_of r.1 ≡ 0) × (turns_left r.1 ≡ first)) }
    ensures second { IfOk result (λ r. (lock_of r.2 ≡ lock_id r.0) × (caller_of r.2 ≡ 1) × (turns_left r.2 ≡ second)) }
    ensures lock { IfOk result (λ r. (passes_of r.0 ≡ 2) × (returned_to r.0 ≡ [])) }
{
    let book = CashBook::begin(alloc)?;
    let (lock, mut passes) = TurnLock::begin(alloc, book, &[first, second])?;
    let second = passes.pop().unwrap();
    let first = passes.pop().unwrap();
    Ok((lock, first, second))
}

/// Makes all calls of a pass: posts, numbered from 0.
fn spend<R: Wait + Clock>(
    rt: &R,
    lock: &TurnLock<CashBook>,
    mut pass: Pass<CashBook>,
) -> Pass<CashBook>
    requires { lock_of pass ≡ lock_id lock.now }
    ensures { lock_of result ≡ lock_id lock.now }
{
    for position in 0..pass.left() {
        let call = CashCall::Post {
            good: Good::default(),
            position,
            nets: Nets {
                dollars: [-1, 0, 0, 0, 0, 0, 0, 0, 1],
            },
        };
        lock.call(rt, &mut pass, &call);
    }
    pass
}

/// Makes the calls of each pass in its own thread: those of the last one in parallel with all the others.
fn spend_all<R: Threads + Wait + Clock + Sync>(
    rt: &R,
    lock: &TurnLock<CashBook>,
    mut passes: Vec<Pass<CashBook>>,
) -> Result<Vec<Pass<CashBook>>, AllocError>
    requires { All (λ p. lock_of p ≡ lock_id lock.now) passes.items }
    ensures own { IfOk result (λ all. All (λ p. lock_of p ≡ lock_id lock.now) all.items) }
    ensures length { IfOk result (λ all. length all.items ≡ length passes.items) }
{
    let Some(pass) = passes.pop() else {
        return Ok(passes);
    };
    let others = passes;
    let (others, pass) = join(
        rt,
        || -> Result<Vec<Pass<CashBook>>, AllocError>
            requires { IsSync R.row × All (λ p. lock_of p ≡ lock_id lock.now) others.items }
            ensures { IfOk result (λ all. All (λ p. lock_of p ≡ lock_id lock.entry.now) all.items × (length all.items ≡ length others.items)) }
        { spend_all(rt, lock, others) },
        || spend(rt, lock, pass),
    );
    let mut all = others?;
    all.push(pass)?;
    Ok(all)
}

/// Takes all passes back.
fn take_back(lock: &mut TurnLock<CashBook>, mut passes: Vec<Pass<CashBook>>)
    requires { All (λ p. lock_of p ≡ lock_id lock.old) passes.items }
    ensures passes { passes_of lock.new ≡ passes_of lock.old }
    ensures returned { length (returned_to lock.new) ≡ length (returned_to lock.old) + length passes.items }
{
    while let Some(pass) = passes.pop() {
        lock.take_back(pass);
    }
}

/// Returns the book after callers made this many posts each, concurrently.
fn posted<R: Threads + Wait + Clock + Sync>(
    rt: &R,
    alloc: Global,
    limits: &[u32],
) -> Result<CashBook, Memory>
    requires limits { (1 ≤ length limits.now) × (length limits.now ≤ 9) }
    requires caps { (i : ℕ) → i < length limits.now → slice_index limits.now i ≤ cash_cap i }
{
    let book = CashBook::begin(alloc)?;
    let (mut lock, passes) = TurnLock::begin(alloc, book, limits)?;
    let passes = spend_all(rt, &lock, passes)?;
    take_back(&mut lock, passes);
    Ok(lock.close())
}

/// The number of posts of a caller, if they are numbered from 0 in order.
fn posts_of(book: &CashBook, caller: u8) -> Option<u32> {
    let mut count = 0u32;
    for position in 0..2001 {
        let Some(entry) = book.entry(position) else {
            break;
        };
        if entry.caller.get() == caller {
            let CashCall::Post { position, .. } = entry.call else {
                return None;
            };
            if position != count || entry.reply != CashReply::Done {
                return None;
            }
            count += 1;
        }
    }
    Some(count)
}

/// Whether so many callers have so many posts each, and the house this total.
fn have_posted(book: &CashBook, callers: u8, posts: u32, total: i64) -> bool {
    (0..callers).all(|caller| posts_of(book, caller) == Some(posts))
        && book.total(Party::house()) == total
}

#[test]
fn callers_post_at_once_and_take_turns_at_the_cash_book(rt: HostRuntime) -> Result<(), Fail> {
    let two = posted(&rt, rt.alloc(), &[1000, 1000])?;
    assert!(rt; have_posted(&two, 2, 1000, 2000));
    let nine = posted(&rt, rt.alloc(), &[100; 9])?;
    assert!(rt; have_posted(&nine, 9, 100, 900));
    let (zero, one) = (Agent::new(0)?, Agent::new(1)?);
    let (mut lock, mut first, mut second) = begin_two(rt.alloc(), 2, 1)?;
    let call = CashCall::Post {
        good: Good::default(),
        position: 0,
        nets: Nets {
            dollars: [-300, 0, 0, 0, 0, 0, 0, 0, 300],
        },
    };
    assert!(rt; lock.call(&rt, &mut first, &call) == (0, CashReply::Done));
    let board = lock.peek(&mut second);
    assert!(rt; board.count == 1 && board.bid == 0 && board.ask == 0 && !board.closed);
    let call = CashCall::Read { agent: one };
    assert!(rt; lock.call(&rt, &mut second, &call) == (1, CashReply::Cash(0)));
    let call = CashCall::Read { agent: zero };
    assert!(rt; lock.call(&rt, &mut first, &call) == (2, CashReply::Cash(-300)));
    assert!(rt; first.left() == 0 && second.left() == 0 && second.caller().get() == 1);
    lock.take_back(first);
    lock.take_back(second);
    let book = lock.close();
    assert!(rt; book.total(Party::house()) == 300 && book.entry(3).is_none());
    Ok(())
}
