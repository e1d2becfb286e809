// The calls that requests make.
ghost use Rattle.std.specs.Prelude.{◌≡◌, ◌↔◌, Some, IsTrue, option_map};
ghost use Rattle.agent_gate.specs.Turns.{asked_call};

use line_protocol::Request;
use tac_base::{Call, same_points};

/// Whether a request makes this call.
pub(crate) fn makes(request: &Request, call: &Call) -> bool
    ensures { IsTrue result ↔ (option_map (λ p. p.1) (asked_call request.now) ≡ Some call.now) }
{
    match request {
        Request::Bid { points, .. } => {
            matches!(call, Call::Bid(others) if same_points(points, others))
        }
        Request::Withdraw { .. } => matches!(call, Call::Withdraw),
        Request::Own { .. } => matches!(call, Call::Own),
        Request::Quote { .. } | Request::Cash | Request::Quit => false,
    }
}
