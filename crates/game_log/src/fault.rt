/// Why the second part of a log was not completely written.
#[derive(Clone, Copy, Debug, PartialEq, Eq)]
pub enum LogWriteFault {
    /// A write failed, and the sink counted it. Only some of the part's first bytes, or none, were written.
    Failed,
    /// A memory allocation failed. Nothing was written.
    Memory,
}
