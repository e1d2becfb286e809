/// How far each history was walked. By good: the first position that was not looked at, the number of calls made, and the least length that
/// the replies show. Of the cash history: the first position that was not looked at, and the number of readings made.
#[derive(Clone, Copy, Debug, PartialEq, Eq)]
pub(crate) struct Places {
    pub(crate) next: [u32; 28],
    pub(crate) made: [u32; 28],
    pub(crate) seen: [u32; 28],
    pub(crate) cash: u32,
    pub(crate) readings: u32,
}
