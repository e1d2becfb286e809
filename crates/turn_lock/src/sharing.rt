//! Threads can share a lock, and locks and passes can move between threads. These calls prove it for all states.
use crate::kept::Kept;
use crate::lock::TurnLock;
use crate::pass::Pass;

fn moves<T: Send>(_value: &T) {}

fn is_shared<T: Sync>(_value: &T) {}

fn pass_moves<S: Kept>(pass: &Pass<S>) {
    moves(pass);
}

fn lock_is_shared<S: Kept>(lock: &TurnLock<S>) {
    moves(lock);
    is_shared(lock);
}
