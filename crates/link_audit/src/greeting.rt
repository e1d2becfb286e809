// Compares the first line of a link, and the welcome that it was sent.
ghost use Rattle.std.specs.Prelude.{◌≡◌, ◌≤◌, ◌↔◌, ◌∷◌, [], ℕ, length, IsTrue, MatchOption};
ghost use Rattle.std.specs.List.{list_any};
ghost use Rattle.link_audit.specs.{gives_seat, welcome_lines, logged_verdicts, TakesSeat, FindsBehind};

use crate::lines::line_end;
use agent_gate::Gate;
use game_text::{Game, print_agent_line};
use line_protocol::{LogHead, Verdict};
use log_reader::Log;
use tac_base::limits::LINE_BYTES;
use tac_base::{Agent, Text, print_numeral};

/// Whether the head of a log gives a link the seat of an agent.
fn is_listed(log: &Log, agent: Agent) -> bool
    ensures { result ≡ list_any (gives_seat agent) (logged_verdicts log.now.head) }
{
    match log.head() {
        LogHead::Play => false,
        LogHead::Serve { verdicts, .. } => verdicts.iter().any(
            |verdict| matches!(verdict, Verdict::Seated(seat) if *seat == agent),
        ),
    }
}

/// The agent whose seat a first line takes, if the head of the log gives that seat to a link.
pub(crate) fn seat_of(game: &Game, log: &Log, line: &[u8]) -> Option<Agent>
    ensures { MatchOption result ((agent : ℕ) → TakesSeat game.now log.now line.now agent → ⊥) (λ agent. TakesSeat game.now log.now line.now agent) }
{
    if line.len() > LINE_BYTES as usize {
        return None;
    }
    let mut gate = Gate::new(game);
    let Verdict::Seated(agent) = gate.admit(line) else {
        return None;
    };
    if is_listed(log, agent) {
        Some(agent)
    } else {
        None
    }
}

/// Whether two texts have the same bytes.
fn same_bytes(a: &[u8], b: &[u8]) -> bool
    ensures { IsTrue result ↔ (a.now ≡ b.now) }
{
    a == b
}

/// Returns the place after this line, if it is the next line of the bytes.
fn behind_line(said: &[u8], from: usize, line: &[u8]) -> Option<usize>
    requires { from ≤ length said.now }
    ensures { FindsBehind (line.now ∷ []) said.now from result }
{
    let Some(end) = line_end(said, from) else {
        return None;
    };
    if same_bytes(&said[from..end], line) {
        Some(end + 1)
    } else {
        None
    }
}

/// Returns the place after the welcome of a seated link, if the bytes begin with it.
pub(crate) fn behind_welcome(game: &Game, agent: Agent, said: &[u8]) -> Option<usize>
    ensures { FindsBehind (welcome_lines game.now agent) said.now 0 result }
{
    let mut text = Text::new();
    text.push_bytes(b"welcome ");
    print_numeral(u64::from(agent.get()), &mut text);
    let Some(mut to) = behind_line(said, 0, text.as_slice()) else {
        return None;
    };
    for n in 0..9 {
        text.clear();
        print_agent_line(game, agent, n, &mut text);
        let Some(next) = behind_line(said, to, text.as_slice()) else {
            return None;
        };
        to = next;
    }
    Some(to)
}
