// Finds the best allocation of an account.
ghost use Rattle.std.specs.Prelude.{◌≡◌, true, IfOk, IsTrue};
ghost use Rattle.allocator.specs.{CERTIFICATE_DEPTH, IsBest, IsFeasible, total_of, is_tree, tree_of, holds, all_left, IsCeiling, IsReached};

use crate::searching::{Attempt, Found, Search, Stop, explore, leaf, offer_near};
use crate::symmetry::Hint;
use bound_cert::{Cert, CertNode, Solved};
use dual_bound::{Choice, settled_quote};
use game_text::Account;
use packages::Package;
use relaxation::Relaxation;
use std::alloc::{AllocError, Global};
use tac_base::Memory;
use tac_base::limits::BEST_TOTAL;

/// The last of this many attempts may visit 5 * 10^14 parts, more than any memory can hold.
const MOST_ATTEMPTS: u32 = 40;

/// Searches all allocations, for which prices may be enough. Otherwise it searches by the two rules in turn, with a growing limit of parts: a
/// rule that leaves few parts for one account may leave a hundred times as many for another. It also returns `AllocError` if the parts need
/// more memory than any machine has.
fn explore_all(
    alloc: Global,
    account: &Account,
    relaxation: &Relaxation,
    best: &mut Found,
) -> Result<CertNode, AllocError>
    requires ceiling { IsCeiling account.now all_left relaxation.now.worths.dollars }
    requires reached { IsReached account.now best.old.allocation best.old.total }
    ensures reached { IsReached account.now best.new.allocation best.new.total }
    ensures holds { IfOk result (λ root. holds account.now best.new.total all_left (tree_of root) ≡ true) }
    ensures fits { IfOk result (λ root. is_tree CERTIFICATE_DEPTH (tree_of root) ≡ true) }
{
    // The proof uses the account's ranges, which are known once it is read.
    let _holdings = &account.holdings;
    let all = Choice::none();
    if let Some(quote) = settled_quote(account, &all, relaxation, best.total) {
        if quote.holds(&relaxation.worths, best.total) {
            return Ok(leaf(&quote.prices));
        }
    }
    let mut attempt = Attempt::first();
    // A better total repeats the same attempt.
    for _ in 0..MOST_ATTEMPTS + BEST_TOTAL {
        let before = best.total;
        best.parts = 0;
        let search = Search {
            alloc,
            account,
            attempt,
        };
        match explore(&search, 0, &all, relaxation, Hint::Nothing, best) {
            Err(Stop::Memory) => return Err(AllocError),
            Ok(root) => {
                let other = attempt.shorter(best.parts, best.total > before);
                return Ok(shorter_of(alloc, account, other, relaxation, root, best));
            }
            Err(Stop::Parts) if best.total == before => attempt = attempt.next(),
            // The attempt found a better allocation: from its total on, less is left to search.
            Err(Stop::Parts) => (),
        }
    }
    Err(AllocError)
}

/// Returns the certificate of another attempt if that one ends too, or else the one already found.
fn shorter_of(
    alloc: Global,
    account: &Account,
    other: Option<Attempt>,
    relaxation: &Relaxation,
    root: CertNode,
    best: &mut Found,
) -> CertNode
    requires ceiling { IsCeiling account.now all_left relaxation.now.worths.dollars }
    requires reached { IsReached account.now best.old.allocation best.old.total }
    requires holds { holds account.now best.old.total all_left (tree_of root) ≡ true }
    requires fits { is_tree CERTIFICATE_DEPTH (tree_of root) ≡ true }
    ensures reached { IsReached account.now best.new.allocation best.new.total }
    ensures holds { holds account.now best.new.total all_left (tree_of result) ≡ true }
    ensures fits { is_tree CERTIFICATE_DEPTH (tree_of result) ≡ true }
{
    let Some(other) = other else {
        return root;
    };
    best.parts = 0;
    let all = Choice::none();
    let search = Search {
        alloc,
        account,
        attempt: other,
    };
    match explore(&search, 0, &all, relaxation, Hint::Nothing, best) {
        Ok(less) => less,
        Err(_) => root,
    }
}

/// Finds a best allocation of an account's goods to its clients, by depth-first search. This project chooses which of
/// several it returns, and the certificate. After `Memory` it returns no allocation.
pub fn solve(alloc: Global, account: &Account) -> Result<Solved, Memory>
    ensures feasible { IfOk result (λ solved. IsFeasible account.now solved.allocation) }
    ensures worth { IfOk result (λ solved. total_of account.now.clients solved.allocation ≡ solved.total) }
    ensures holds { IfOk result (λ solved. IsTrue (holds account.now solved.total all_left (tree_of solved.cert.root))) }
    ensures best { IfOk result (λ solved. IsBest account.now solved.total) }
{
    // The law of certificates uses the account's ranges, which are known once it is read.
    let _holdings = &account.holdings;
    let mut best = Found {
        allocation: [Package::None; 8],
        total: 0,
        parts: 0,
    };
    let relaxation = Relaxation::new(account);
    offer_near(0, account, &relaxation, &mut best);
    let root = explore_all(alloc, account, &relaxation, &mut best)?;
    Ok(Solved {
        allocation: best.allocation,
        total: best.total,
        cert: Cert { root },
    })
}
