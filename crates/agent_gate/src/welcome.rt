// The welcome: the first text that a seated link is sent.
ghost use Rattle.std.specs.Prelude.{◌≤◌, OnOk, OnErr, length};
ghost use Rattle.agent_gate.specs.{KeepsPlace, link_of, FailsByWrite, OnlySends, ReadsNothing, TakesSome, MovesOn, welcome_text};

use game_text::{Game, print_agent_line};
use tac_base::{Agent, Text, print_numeral};
use tac_io::{Failed, Lines, Link};

/// The most bytes that a text may hold when another line is appended: this leaves 256 bytes and a line end free.
const MOST_BEFORE_A_LINE: usize = 383;

/// Sends the text if another line might not fit.
fn send_if_full<L: Link>(text: &mut Text, lines: &mut Lines<L>) -> Result<(), Failed>
    ensures moved { OnOk result (MovesOn (L.state (link_of lines.old)) (L.state (link_of lines.new)) text.old text.new) }
    ensures room { OnOk result (length text.new ≤ MOST_BEFORE_A_LINE) }
    ensures failed { OnErr result (TakesSome (L.state (link_of lines.old)).sent (L.state (link_of lines.new)).sent text.old) }
    ensures cause { FailsByWrite (L.state (link_of lines.old)) (L.state (link_of lines.new)) result }
    ensures read { ReadsNothing (L.state (link_of lines.old)) (L.state (link_of lines.new)) }
    ensures place { KeepsPlace lines.old lines.new }
{
    if text.as_slice().len() > MOST_BEFORE_A_LINE {
        lines.send(text.as_slice())?;
        text.clear();
    }
    Ok(())
}

/// Sends an agent its number, its tickets and its clients, in as few pieces as `Text` allows. After `Failed`, only
/// some of the first bytes, or none, were sent.
pub(crate) fn welcome<L: Link>(
    lines: &mut Lines<L>,
    game: &Game,
    agent: Agent,
) -> Result<(), Failed>
    ensures sends { OnlySends (L.state (link_of lines.old)) (L.state (link_of lines.new)) (welcome_text game.now agent) result }
    ensures place { KeepsPlace lines.old lines.new }
{
    let mut text = Text::new();
    text.push_bytes(b"welcome ");
    print_numeral(u64::from(agent.get()), &mut text);
    text.push(b'\n');
    for n in 0..9 {
        send_if_full(&mut text, lines)?;
        print_agent_line(game, agent, n, &mut text);
        text.push(b'\n');
    }
    lines.send(text.as_slice())
}
