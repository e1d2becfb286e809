use crate::Agent;

/// One standing unit of a bid, as the books of hotels and tickets show it.
#[derive(Clone, Copy, Debug, Default, PartialEq, Eq)]
pub struct Unit {
    /// The agent that owns the unit.
    pub agent: Agent,
    /// The most that the unit may cost, or the least that it must bring, in dollars.
    pub price: u16,
    /// The position of the bid in the history of its auction, counted from 0.
    pub position: u32,
    /// The index of the unit among the units of its bid, counted from 0.
    pub index: u8,
}
