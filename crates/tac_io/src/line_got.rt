// What the next read of a line gave.

/// What the next read of a line gave.
#[derive(Clone, Copy, Debug, PartialEq, Eq)]
pub enum LineGot {
    /// A line of at most 512 bytes, without its line end.
    Line,
    /// A line of more than 512 bytes before its end. All of it was skipped.
    TooLong,
    /// A read gave no byte: there is nothing more to read. Bytes without a line end are dropped.
    End,
    /// A read failed, and the link counted the fault.
    Failed,
    /// 67,108,864 bytes were taken from the link, and the line has not ended.
    Budget,
}
