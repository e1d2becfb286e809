// Joins each agent's desk with the lines of its link, if it has one.
ghost use Rattle.std.specs.Prelude.{◌≡◌, ◌∷◌, ◌++◌, [], ◌≤◌, ◌+◌, map, vec_len};
ghost use Rattle.game_run.specs.Seatings.{eight_of, four_of, two_of};

use crate::sessions::{AgentSeat, Eight, Four, Two};
use floor::Desk;
use tac_base::limits::AGENTS;
use tac_io::Lines;

// Takes the last seat.
fn last_seat<L>(desks: &mut Vec<Desk>, lines: &mut Vec<Option<Lines<L>>>) -> AgentSeat<L>
    requires desks { 1 ≤ vec_len desks.old }
    requires lines { 1 ≤ vec_len lines.old }
    ensures desks { desks.old.items ≡ desks.new.items ++ result.desk ∷ [] }
    ensures lines { lines.old.items ≡ lines.new.items ++ result.lines ∷ [] }
    ensures desks_left { vec_len desks.new + 1 ≡ vec_len desks.old }
    ensures lines_left { vec_len lines.new + 1 ≡ vec_len lines.old }
{
    AgentSeat {
        desk: desks.pop().unwrap(),
        lines: lines.pop().unwrap(),
    }
}

// Takes the last two seats, in order.
fn last_two<L>(desks: &mut Vec<Desk>, lines: &mut Vec<Option<Lines<L>>>) -> Two<AgentSeat<L>>
    requires desks { 2 ≤ vec_len desks.old }
    requires lines { 2 ≤ vec_len lines.old }
    ensures desks { desks.old.items ≡ desks.new.items ++ map (λ p. p.desk) (two_of result) }
    ensures lines { lines.old.items ≡ lines.new.items ++ map (λ p. p.lines) (two_of result) }
    ensures desks_left { vec_len desks.new + 2 ≡ vec_len desks.old }
    ensures lines_left { vec_len lines.new + 2 ≡ vec_len lines.old }
{
    let second = last_seat(desks, lines);
    let first = last_seat(desks, lines);
    Two { first, second }
}

// Takes the last four seats, in order.
fn last_four<L>(desks: &mut Vec<Desk>, lines: &mut Vec<Option<Lines<L>>>) -> Four<AgentSeat<L>>
    requires desks { 4 ≤ vec_len desks.old }
    requires lines { 4 ≤ vec_len lines.old }
    ensures desks { desks.old.items ≡ desks.new.items ++ map (λ p. p.desk) (four_of result) }
    ensures lines { lines.old.items ≡ lines.new.items ++ map (λ p. p.lines) (four_of result) }
    ensures desks_left { vec_len desks.new + 4 ≡ vec_len desks.old }
    ensures lines_left { vec_len lines.new + 4 ≡ vec_len lines.old }
{
    let second = last_two(desks, lines);
    let first = last_two(desks, lines);
    Two { first, second }
}

/// Returns the seats of the eight agents, in order.
pub(crate) fn agent_seats<L: Drop>(
    mut desks: Vec<Desk>,
    mut lines: Vec<Option<Lines<L>>>,
) -> Eight<AgentSeat<L>>
    requires desks { vec_len desks ≡ AGENTS }
    requires lines { vec_len lines ≡ AGENTS }
    ensures desks { desks.items ≡ map (λ p. p.desk) (eight_of result) }
    ensures lines { lines.items ≡ map (λ p. p.lines) (eight_of result) }
{
    let second = last_four(&mut desks, &mut lines);
    let first = last_four(&mut desks, &mut lines);
    Two { first, second }
}
