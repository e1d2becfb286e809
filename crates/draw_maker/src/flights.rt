ghost use Rattle.draw_maker.specs.Flights.{made_flight};

use crate::drawing::{Drawn, draw_words};
use game_text::FlightLine;
use rand_pcg::Lcg64Xsh32;

/// The first price is 250 dollars plus a word modulo 151; the bound is -10 dollars plus a word modulo 41.
impl Drawn for FlightLine {
    ghost size = { 55 };

    ghost made = { made_flight };

    fn draw(generator: &mut Lcg64Xsh32) -> Self {
        let [first, bound] = draw_words::<2>(generator);
        FlightLine {
            first: 250 + (first % 151) as u16,
            bound: (bound % 41) as i8 - 10,
            draws: draw_words(generator),
        }
    }
}
