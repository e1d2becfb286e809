//! The steps on the table of a lock, and what each tells the seat that makes it.
ghost use Rattle.turn_lock.specs.{spent, drew, looked, PublishesBoard, peeked, with_pass, next_pass, with_returned};

use crate::kept::Kept;
use crate::view::View;
use atomic_table::{Join, Play, Split};
use std::marker::PhantomData;

/// Draws a ticket from word 0.
pub(crate) struct Draw;

impl<S, G, E> Play<S, View<S, G, E>> for Draw {
    ghost then = { drew };
}

/// Reads the board, and takes the state if it is the ticket's turn.
pub(crate) struct TryTurn<S> {
    state: PhantomData<S>,
}

impl<S: Kept> Play<S, View<S, S::Setup, S::Entry>> for TryTurn<S> {
    ghost then = { looked S.setup S.history S.caller_of };
}

/// Publishes the new board, and returns the state to its slot.
pub(crate) struct Publish<S> {
    state: PhantomData<S>,
}

impl<S: Kept> Play<S, View<S, S::Setup, S::Entry>> for Publish<S> {
    ghost then = { PublishesBoard S.history S.caller_of };
}

/// Reads the board.
pub(crate) struct Peek;

impl<S, G, E> Play<S, View<S, G, E>> for Peek {
    ghost then = { peeked };
}

/// Splits off the seat of the next pass.
pub(crate) struct SplitOff;

impl<S, G, E> Split<View<S, G, E>> for SplitOff {
    ghost left = { with_pass };

    ghost right = { next_pass };
}

/// Joins the seat of a pass.
pub(crate) struct JoinPass;

impl<S, G, E> Join<View<S, G, E>> for JoinPass {
    ghost both = { with_returned };

    ghost spent = { spent };
}
