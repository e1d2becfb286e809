// Computes the worth of one unit of each good.
ghost use Rattle.std.specs.Prelude.{◌≡◌, ℕ, ◌<◌, ◌≤ℤ◌, ◌<ℤ◌, pos, IfOk, OnOk, slice_index_or};
ghost use Rattle.good_worth.specs.Worth.{IsUp, IsDown};
ghost use Rattle.good_worth.specs.{AreLess, AreMore, AreRanged, AreWorths, IsGrown, up_at, down_at, solutions_of, worths_of};

use crate::changes::{less, more};
use allocator::{Solved, solve};
use game_text::Account;
use std::alloc::Global;
use tac_base::Memory;
use tac_base::limits::GOODS;

/// The best allocation of an account, and those with one unit more and one unit less of each good, in the order of goods.
#[derive(Debug, Drop)]
pub struct Worths {
    pub base: Solved,
    /// The solutions with one unit more, in the order of the goods 0..27, each worth no less than the base.
    pub more: Vec<Solved>,
    /// The solutions with one unit less, in the order of the goods 0..27, each worth no more than the base.
    pub less: Vec<Solved>,
    ghost fits: { AreRanged (worths_of base more.items less.items) },
}

impl Worths {
    /// What one unit more of a good, 0..27, adds to the best total, in dollars. If nothing else changes, to pay more for it is
    /// a loss, unless the agent is short of that ticket: then this is 0, and the unit saves the penalty of 200 dollars.
    pub fn up(&self, good: usize) -> u32
        requires { good < GOODS }
        ensures { result ≡ up_at (worths_of self.now.base self.now.more.items self.now.less.items) good }
    {
        self.more[good].total - self.base.total
    }

    /// What one unit less of a good, 0..27, takes from the best total, in dollars. If nothing else changes, to sell it for less
    /// is a loss; to sell a ticket that the agent does not have also costs the penalty of 200 dollars.
    pub fn down(&self, good: usize) -> u32
        requires { good < GOODS }
        ensures { result ≡ down_at (worths_of self.now.base self.now.more.items self.now.less.items) good }
    {
        self.base.total - self.less[good].total
    }
}

/// Solves an account, and appends the solution. After `Memory` the list is as it was.
fn push_solved(alloc: Global, account: &Account, all: &mut Vec<Solved>) -> Result<(), Memory>
    ensures { OnOk result (IsGrown account.now (solutions_of all.old.items) (solutions_of all.new.items)) }
{
    let solved = solve(alloc, account)?;
    all.push(solved).map_err(|_| Memory)
}

/// Solves the account with one unit more of each good in turn.
fn solve_more(alloc: Global, account: &Account) -> Result<Vec<Solved>, Memory>
    ensures { IfOk result (λ solved. AreMore account.now (solutions_of solved.items)) }
{
    let mut solved = Vec::new(alloc);
    for good in 0..28 {
        push_solved(alloc, &more(account, good), &mut solved)?;
    }
    Ok(solved)
}

/// Solves the account with one unit less of each good in turn.
fn solve_less(alloc: Global, account: &Account) -> Result<Vec<Solved>, Memory>
    ensures { IfOk result (λ solved. AreLess account.now (solutions_of solved.items)) }
{
    let mut solved = Vec::new(alloc);
    for good in 0..28 {
        push_solved(alloc, &less(account, good), &mut solved)?;
    }
    Ok(solved)
}

/// Computes what one unit more and one unit less of each good would change, and shows each by a best allocation with a
/// certificate. This project defines worth in this way. After `Memory` it returns nothing.
pub fn worth(alloc: Global, account: &Account) -> Result<Worths, Memory>
    // Each account is solved as `solve` solves it.
    ensures solved { IfOk result (λ w. AreWorths account.now (worths_of w.base w.more.items w.less.items)) }
    // So the worths are differences of best totals, and none is below 0.
    ensures up { IfOk result (λ w. (good : ℕ) → good < GOODS → IsUp account.now good (up_at (worths_of w.base w.more.items w.less.items) good)) }
    ensures down { IfOk result (λ w. (good : ℕ) → good < GOODS → IsDown account.now good (down_at (worths_of w.base w.more.items w.less.items) good)) }
    // One unit less of a good that is not held takes nothing. One unit more of a good that the agent is short of adds nothing.
    ensures not_held { IfOk result (λ w. (good : ℕ) → good < GOODS → slice_index_or account.now.holdings good (pos 0) ≤ℤ pos 0 → down_at (worths_of w.base w.more.items w.less.items) good ≡ 0) }
    ensures owed { IfOk result (λ w. (good : ℕ) → good < GOODS → slice_index_or account.now.holdings good (pos 0) <ℤ pos 0 → up_at (worths_of w.base w.more.items w.less.items) good ≡ 0) }
{
    // The laws use the account's ranges, which are known once it is read.
    let _holdings = &account.holdings;
    let base = solve(alloc, account)?;
    let more = solve_more(alloc, account)?;
    let less = solve_less(alloc, account)?;
    Ok(Worths { base, more, less })
}
