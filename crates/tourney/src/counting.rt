// Which agents count in a game.
ghost use Rattle.std.specs.Prelude.{◌≡◌};
ghost use Rattle.std.specs.List.{list_any};
ghost use Rattle.tourney.specs.Prelude.{head_of, gives_seat};
ghost use Rattle.tourney.specs.Standings as standings;

use line_protocol::{LogHead, Verdict};
use tac_base::Agent;

/// Whether a link was given the seat of an agent.
fn gives_seat(verdict: &Verdict, agent: Agent) -> bool
    ensures { result ≡ gives_seat agent verdict.now }
{
    match verdict {
        Verdict::Seated(seat) => *seat == agent,
        _ => false,
    }
}

/// Whether one of the links was given the seat of an agent.
fn has_seat(verdicts: &[Verdict], agent: Agent) -> bool
    ensures { result ≡ list_any (gives_seat agent) verdicts.now }
{
    verdicts.iter().any(|verdict| gives_seat(verdict, agent))
}

/// Whether an agent counts in a game.
#[tactic(auto, using(crate::proofs::Seats::given))]
pub(crate) fn counts(head: &LogHead, agent: Agent) -> bool
    ensures { result ≡ standings.counts (head_of head.now) agent }
{
    match head {
        LogHead::Play => true,
        LogHead::Serve { verdicts, .. } => has_seat(verdicts, agent),
    }
}
