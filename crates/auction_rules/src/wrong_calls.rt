// The reply to a call that an auction does not have, or that its caller may not make.
ghost use Rattle.std.specs.Prelude.{◌≡◌, not, ◌&&◌, if◌then◌else◌};
ghost use Rattle.auction_rules.specs.History.{is_own};

use tac_base::{Call, Reply};

/// Returns the reply to a call that the auction does not have or its caller may not make: `Closed` after the closing,
/// except for `Own`, and otherwise `WrongCall`.
pub fn wrong_reply(closed: bool, call: &Call) -> Reply
    ensures { result ≡ (if not (is_own call.now) && closed then Reply.Closed else Reply.WrongCall) }
{
    match call {
        Call::Own => Reply::WrongCall,
        _ if closed => Reply::Closed,
        _ => Reply::WrongCall,
    }
}
