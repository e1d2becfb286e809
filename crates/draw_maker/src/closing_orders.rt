ghost use Rattle.std.specs.Prelude.{◌≡◌};
ghost use Rattle.draw_maker.specs.ClosingOrders.{made_order};
ghost use Rattle.draw_maker.specs.Words as words;

use crate::drawing::draw_words;
use rand_pcg::Lcg64Xsh32;
use tac_base::Good;

/// Returns the hotel nights, shuffled by the words: from the last index to the second, the good at it is swapped
/// with one at an index up to it.
fn order_of(drawn: &[u32; 7]) -> [Good; 8]
    ensures { result ≡ made_order drawn.now }
{
    let mut order = Good::hotels();
    for (i, word) in drawn.iter().enumerate() {
        let place = 7 - i;
        order.swap(place, *word as usize % (place + 1));
    }
    order
}

/// Draws the order in which the hotels close.
pub(crate) fn draw_order(generator: &mut Lcg64Xsh32) -> [Good; 8]
    ensures value { result ≡ made_order (words.next_words 7 generator.old) }
    ensures left { generator.new ≡ words.after 7 generator.old }
{
    order_of(&draw_words(generator))
}
