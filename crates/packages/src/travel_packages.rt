/// What an agent gives to a client. By the game description, a stay has its nights in one hotel and at most one night
/// for each ticket type, all different.
#[derive(Clone, Copy, Debug, PartialEq, Eq)]
pub enum Package {
    /// The client stays at home.
    None,
    Trip {
        /// 0 Shoreline Shanties, 1 Tampa Towers.
        hotel: u8,
        /// The day of arrival, 1..4, which is also the first night of the stay.
        arrive: u8,
        /// The day of departure, after that of arrival and at most 5.
        depart: u8,
        /// The nights of alligator wrestling, of the amusement park and of the museum; 0 if there is none.
        nights: [u8; 3],
    },
}
