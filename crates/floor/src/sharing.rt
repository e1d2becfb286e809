//! Threads can share a floor, and desks and floors can move between threads. These calls prove it.
use crate::desk::Desk;
use crate::floor::Floor;

fn moves<T: Send>(_value: &T) {}

fn is_shared<T: Sync>(_value: &T) {}

fn desk_moves(desk: &Desk) {
    moves(desk);
}

fn floor_is_shared(floor: &Floor) {
    moves(floor);
    is_shared(floor);
}
