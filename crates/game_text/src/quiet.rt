// A game in which flight prices stay the same and nobody has a ticket.
ghost use Rattle.std.specs.Prelude.{◌≡◌};
ghost use Rattle.game_text.specs.QuietGames as quiet;

use crate::{FlightLine, Game, SeatWord};
use tac_base::limits::FLIGHT_DRAWS;
use tac_base::{Client, Good};

/// The quiet game: each flight stays at 300 dollars, nobody has a ticket, and the hotels close in ascending order. Each client prefers to come
/// on day 1 and leave on day 2, with a premium of 100 dollars for the better hotel and 100 dollars for the museum. The seat words are `seat0`
/// to `seat7`. It allocates no memory.
impl Default for Game {
    #[tactic(auto, unfolding(crate::specs::QuietGames::quiet_game))]
    fn default() -> Self
        ensures { result ≡ quiet.quiet_game }
    {
        let flight = FlightLine {
            first: 300,
            bound: 10,
            draws: [10; FLIGHT_DRAWS],
        };
        let client = Client {
            arrive: 1,
            depart: 2,
            premium: 100,
            values: [0, 0, 100],
        };
        Game {
            version: 1,
            words: SeatWord::numbered(),
            flights: [flight; 8],
            order: Good::hotels(),
            rooms: [16; 8],
            live: false,
            endow: [[0; 12]; 8],
            clients: [[client; 8]; 8],
        }
    }
}
