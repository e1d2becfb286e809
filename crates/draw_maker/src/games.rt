ghost use Rattle.std.specs.Prelude.{◌≡◌};
ghost use Rattle.game_text.specs.Games.{IsGame};
ghost use Rattle.draw_maker.specs.Games.{made_game};

use crate::closing_orders::draw_order;
use crate::drawing::draw_each;
use game_text::{FlightLine, Game, SeatWord};
use rand_pcg::Lcg64Xsh32;
use tac_base::Client;

/// The stream of the generator for games.
const GAME_STREAM: u64 = 54;

/// Makes the game of a seed, in version 1: everything except its seat words comes from the words of a PCG generator. This project
/// defines the rule. It allocates no memory.
pub fn make_game(seed: u64) -> Game
    ensures exact { result ≡ made_game seed }
    ensures range { IsGame result }
{
    let mut generator = Lcg64Xsh32::new(seed, GAME_STREAM);
    let mut flights = [FlightLine::default(); 8];
    draw_each(&mut flights, &mut generator);
    let order = draw_order(&mut generator);
    let mut endow = [[0; 12]; 8];
    draw_each(&mut endow, &mut generator);
    let mut clients = [[Client::default(); 8]; 8];
    draw_each(&mut clients, &mut generator);
    Game {
        version: 1,
        words: SeatWord::numbered(),
        flights,
        order,
        rooms: [16; 8],
        live: false,
        endow,
        clients,
    }
}
