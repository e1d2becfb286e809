// The error that public calls return for want of memory.
use std::alloc::AllocError;

/// A memory allocation failed, or a search would have visited more parts than any memory can hold. Nothing else is known about the
/// call.
#[derive(Clone, Copy, Debug, PartialEq, Eq)]
pub struct Memory;

impl From<AllocError> for Memory {
    fn from(_: AllocError) -> Self {
        Memory
    }
}
