//! Returns all passes to their locks. What a desk recorded becomes a fact about the histories.
ghost use Rattle.std.specs.Prelude.{◌≡◌, ℕ, ◌≤◌, [], length, map, vec_capacity};
ghost use mathlib.Core.Option.{some};
ghost use lib.ListN.{get_elem?};
ghost use Rattle.turn_lock.specs.Passes.{lock_of, lock_id, start_of, passes_of, returned_to, returned_by};
ghost use Rattle.floor.specs.{with_each, AreGivenBack};

use auction_core::Auction;
use turn_lock::{Pass, TurnLock};

/// Returns one caller's passes to their locks.
pub(crate) fn return_passes(locks: &mut Vec<TurnLock<Auction>>, passes: Vec<Pass<Auction>>)
    requires { map (λ p. lock_of p) passes.items ≡ map (λ lock. lock_id lock) locks.old.items }
    ensures ids { map (λ lock. lock_id lock) locks.new.items ≡ map (λ lock. lock_id lock) locks.old.items }
    ensures starts { map (λ lock. start_of lock) locks.new.items ≡ map (λ lock. start_of lock) locks.old.items }
    ensures passes { map (λ lock. passes_of lock) locks.new.items ≡ map (λ lock. passes_of lock) locks.old.items }
    ensures returned { map (λ lock. returned_to lock) locks.new.items ≡ with_each (map (λ lock. returned_to lock) locks.old.items) (map (λ p. returned_by p) passes.items) }
{
    let mut good = 0;
    for pass in passes {
        locks[good].take_back(pass);
        good += 1;
    }
}

/// Closes the locks, once all passes are back, and returns the auctions in reserved memory.
pub(crate) fn close_all(locks: Vec<TurnLock<Auction>>, mut room: Vec<Auction>) -> Vec<Auction>
    requires room { (room.items ≡ []) × (length locks.items ≤ vec_capacity room) }
    requires all_back { (good : ℕ) (lock : _) → get_elem? locks.items good ≡ some lock → length (returned_to lock) ≡ passes_of lock }
    ensures length { length result.items ≡ length locks.items }
    ensures given_back { AreGivenBack locks.items result.items }
{
    for lock in locks {
        room.push_reserved(lock.close());
    }
    room
}
