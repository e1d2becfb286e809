use crate::kept::Kept;
use atomic_table::TableRule;
use std::collections::LinkedList;
use std::marker::PhantomData;
use std::snapshot::Snapshot;
use tac_base::Board;

/// The record of a pass that was taken back. Only contracts use it; no value of it is made.
pub struct Returned<E> {
    pub caller: u64,
    /// Its own entries, with their positions.
    pub mine: LinkedList<(u64, E)>,
    /// The boards that it saw, each with its count.
    pub notes: LinkedList<(u64, Board)>,
}

/// What a seat at the lock's table knows. Only contracts use it; no value of it is made.
pub struct View<S, G, E> {
    /// The state that the lock was made with; none for the seat of a pass that was taken back.
    pub start: Option<S>,
    /// 1 for the seat of a pass that was not taken back, else 0.
    pub live: u64,
    pub caller: u64,
    /// 1 while it has an unused ticket, else 0.
    pub waits: u64,
    pub ticket: u64,
    /// The length of the history that it has seen.
    pub seen: u64,
    /// Its own entries, with their positions.
    pub mine: LinkedList<(u64, E)>,
    /// The boards that it saw, each with its count.
    pub notes: LinkedList<(u64, Board)>,
    /// While it has the turn, the setup and the history of the state that it took.
    pub held: Option<(G, LinkedList<E>)>,
    /// The lock's own seat only: how many passes were made.
    pub passes: u64,
    /// The lock's own seat only: the records of the passes that were taken back.
    pub returned: LinkedList<Returned<E>>,
}

/// The invariant of the table of a lock.
pub struct TurnRule<S> {
    state: PhantomData<S>,
}

impl<S: Kept> TableRule<S, View<S, S::Setup, S::Entry>, Snapshot<S>> for TurnRule<S> {
    ghost use Rattle.turn_lock.specs.TurnRule.{Turning, own_at_first};

    ghost holds = { λ key. Turning S.setup S.history S.legal S.board S.caller_of key.value };

    ghost first = { λ key. own_at_first key.value };
}
