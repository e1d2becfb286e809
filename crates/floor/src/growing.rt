ghost use Rattle.std.specs.Prelude.{◌≡◌, ◌≤◌, [], ◌∷◌, ◌++◌, OnOk, OnErr, vec_len, vec_capacity};

use std::alloc::AllocError;
use tac_base::Memory;

/// Adds an item at the end. If an allocation fails, which happens only if the list is full, the item is dropped.
pub(crate) fn add<T: Drop>(list: &mut Vec<T>, item: T) -> Result<(), Memory>
    ensures added { OnOk result (list.new.items ≡ list.old.items ++ item ∷ []) }
    ensures kept { OnErr result (list.new.items ≡ list.old.items) }
    ensures full { OnErr result (vec_capacity list.old ≤ vec_len list.old) }
{
    match list.push(item) {
        Ok(()) => Ok(()),
        Err(e) => Err(AllocError::from(e).into()),
    }
}
