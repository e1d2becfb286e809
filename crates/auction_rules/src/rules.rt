/// What a game fixes for an auction: for a flight its first price in dollars and its bound, by the game description; for
/// a hotel night its rooms, and whether its quotes are live, which this project defines; for tickets nothing.
#[derive(Clone, Copy, Debug, PartialEq, Eq)]
pub enum Rules {
    Flight { first: u16, bound: i8 },
    Hotel { rooms: u8, live: bool },
    Tickets,
}
