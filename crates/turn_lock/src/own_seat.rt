ghost use Rattle.std.specs.Prelude.{◌≡◌, [], ◌∷◌};
ghost use base.Fml.{ftrue};

use atomic_table::{Badge, Seat};
use std::marker::Model;
use std::mem;

/// A lock's own seat at its table. A `&` to it gives no access to the seat, so threads can share it.
pub(crate) struct OwnSeat<V> {
    badge: Badge<V>,
}

impl<V> Model for OwnSeat<V> {
    ghost also_owns = { λ _. ftrue };
}

impl<V> OwnSeat<V> {
    fn new(badge: Badge<V>) -> OwnSeat<V>
        ensures { result.badge ≡ badge }
    {
        OwnSeat { badge }
    }

    fn into_badge(self) -> Badge<V>
        ensures { result ≡ self.badge }
    {
        let OwnSeat { badge } = self;
        badge
    }

    /// Stores a seat that holds nothing.
    pub(crate) fn put<S>(seat: Seat<S, V>) -> OwnSeat<V>
        requires { seat.me.1 ≡ [] }
        ensures { (result.badge.table_id ≡ seat.table_id) × (result.badge.id ≡ seat.id) × (result.badge.views ≡ seat.me.0 ∷ []) }
    {
        OwnSeat::new(seat.into_badge())
    }

    /// Returns the seat, which must be there.
    pub(crate) fn into_seat<S>(self) -> Seat<S, V>
        requires { (v : V) × (self.badge.views ≡ v ∷ []) }
        ensures { (result.table_id ≡ self.badge.table_id) × (result.id ≡ self.badge.id) × (self.badge.views ≡ result.me.0 ∷ []) × (result.me.1 ≡ []) }
    {
        self.into_badge().into_seat()
    }

    /// Takes out the seat, which must be there.
    pub(crate) fn take<S>(&mut self) -> Seat<S, V>
        requires { (v : V) × (self.old.badge.views ≡ v ∷ []) }
        ensures { (result.table_id ≡ self.old.badge.table_id) × (result.id ≡ self.old.badge.id)
            × (self.old.badge.views ≡ result.me.0 ∷ []) × (result.me.1 ≡ []) }
    {
        mem::replace(self, OwnSeat::new(Badge::blank())).into_seat()
    }
}

impl<V> Drop for OwnSeat<V> {
    fn drop(self) {
        drop(self.into_badge());
    }
}

unsafe impl<V> Send for OwnSeat<V> {}

unsafe impl<V> Sync for OwnSeat<V> {}
