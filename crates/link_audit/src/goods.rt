ghost use Rattle.std.specs.Prelude.{◌≡◌, ◌<◌};

use tac_base::Good;
use tac_base::limits::GOODS;

/// The good of a number, 0..27.
pub(crate) fn good_of(number: u8) -> Good
    requires { number < GOODS }
    ensures { result ≡ number }
{
    Good::new(number).unwrap()
}
