// The error of calls on the outside.

/// A call on the outside failed, and the object counted the fault.
#[derive(Clone, Copy, Debug, PartialEq, Eq)]
pub struct Failed;
