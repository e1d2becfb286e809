ghost use Rattle.std.specs.Prelude.{◌≡◌, ◌<◌};
ghost use Rattle.draw_maker.specs.Clients.{drawn_trip, made_client, made_clients};

use crate::drawing::{Drawn, draw_below, draw_each, draw_words};
use rand_pcg::Lcg64Xsh32;
use tac_base::Client;

/// The days of arrival and departure, in the order of their ranks.
static TRIPS: [(u8, u8); 10] = [
    (1, 2),
    (1, 3),
    (1, 4),
    (1, 5),
    (2, 3),
    (2, 4),
    (2, 5),
    (3, 4),
    (3, 5),
    (4, 5),
];

/// Returns the days of arrival and departure of the trip with a rank.
#[tactic(auto, unfolding(crate::specs::Clients::drawn_trip))]
fn trip_of(rank: u32) -> (u8, u8)
    requires { rank < 10 }
    ensures { result ≡ drawn_trip rank }
{
    TRIPS[rank as usize]
}

/// The trip is one of the ten, the premium is 50 dollars plus a word modulo 101, and each value is a word modulo 201.
impl Drawn for Client {
    ghost size = { 5 };

    ghost made = { made_client };

    fn draw(generator: &mut Lcg64Xsh32) -> Self {
        let [trip, premium] = draw_words::<2>(generator);
        let (arrive, depart) = trip_of(trip % 10);
        Client {
            arrive,
            depart,
            premium: 50 + (premium % 101) as u8,
            values: draw_below(generator, 201),
        }
    }
}

/// The clients of an agent.
impl Drawn for [Client; 8] {
    ghost size = { 40 };

    ghost made = { made_clients };

    fn draw(generator: &mut Lcg64Xsh32) -> Self {
        let mut clients = [Client::default(); 8];
        draw_each(&mut clients, generator);
        clients
    }
}
