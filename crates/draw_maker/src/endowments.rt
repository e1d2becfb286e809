ghost use Rattle.draw_maker.specs.Endowments.{made_endowment};

use crate::drawing::{Drawn, draw_below};
use rand_pcg::Lcg64Xsh32;

/// How many of each ticket an agent has at the start: none, one or two.
impl Drawn for [u8; 12] {
    ghost size = { 12 };

    ghost made = { made_endowment };

    fn draw(generator: &mut Lcg64Xsh32) -> Self {
        draw_below(generator, 3)
    }
}
