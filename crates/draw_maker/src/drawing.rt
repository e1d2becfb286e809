ghost use Rattle.std.specs.Prelude.{◌≡◌, ◌*◌, ◌%◌, ◌<◌, map, length};
ghost use Rattle.draw_maker.specs.Words as words;

use rand_core::utils::NextWord;
use rand_pcg::Lcg64Xsh32;

/// Draws the next words of a generator.
pub(crate) fn draw_words<const N: usize>(generator: &mut Lcg64Xsh32) -> [u32; N]
    ensures value { result ≡ words.next_words N generator.old }
    ensures left { generator.new ≡ words.after N generator.old }
{
    let mut drawn = [0; N];
    for i in 0..N {
        drawn[i] = generator.next_word();
    }
    drawn
}

/// Draws numbers below a limit, each a word modulo the limit.
pub(crate) fn draw_below<const N: usize>(generator: &mut Lcg64Xsh32, limit: u8) -> [u8; N]
    requires { 0 < limit }
    ensures value { result ≡ map (λ word. word % limit) (words.next_words N generator.old) }
    ensures left { generator.new ≡ words.after N generator.old }
{
    let mut numbers = [0; N];
    for i in 0..N {
        numbers[i] = (generator.next_word() % u32::from(limit)) as u8;
    }
    numbers
}

/// A value that is made from the next words of a generator.
pub(crate) trait Drawn: Sized + Drop {
    ghost use Rattle.std.specs.Prelude.{ℕ, List};

    // how many words it uses
    ghost size: { ℕ };

    // the value that they make
    ghost made: { List ℕ → Self };

    /// Draws the words, and makes a value from them.
    fn draw(generator: &mut Lcg64Xsh32) -> Self
        ensures value { result ≡ made (words.next_words size generator.old) }
        ensures left { generator.new ≡ words.after size generator.old };
}

/// Draws each of the values, in order.
pub(crate) fn draw_each<T: Drawn>(values: &mut [T], generator: &mut Lcg64Xsh32)
    ensures value { values.new ≡ map T.made (words.parts (length values.old) T.size (words.next_words (length values.old * T.size) generator.old)) }
    ensures left { generator.new ≡ words.after (length values.old * T.size) generator.old }
{
    for value in values.iter_mut() {
        *value = T::draw(generator);
    }
}
