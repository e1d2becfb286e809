ghost use Rattle.std.specs.Prelude.{◌≡◌, ◌+◌, ◌<◌};

use tac_base::limits::GOODS;
use tac_base::{Good, Tick};

/// The good of a number, 0..27.
pub(crate) fn good_of(number: u8) -> Good
    requires { number < GOODS }
    ensures { result ≡ number }
{
    Good::new(number).unwrap()
}

/// The tick after this many ticks, which are fewer than 54.
pub(crate) fn tick_after(number: u8) -> Tick
    requires { number < 54 }
    ensures { result ≡ number + 1 }
{
    Tick::new(number + 1).unwrap()
}
