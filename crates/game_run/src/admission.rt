// Admits links to seats. This project defines the rule.
ghost use Rattle.std.specs.Prelude.{◌≡◌, ◌<◌, ◌≤◌, ◌+◌, [], ◌∷◌, None, IfOk, OnOk, OnErr, IfSome, length, vec_len, vec_capacity, replicate};
ghost use Rattle.game_run.specs.{HasCause, count_of, held_of, last_of, link_of, IsAtEnd, known_then, seats_after, MayGoOn, refusal_line, AreTaken, IsOnlySent, IsFirstRead, IsGreeting, IsTakenIn, seat_of};

use crate::arrivals::{Arrivals, Greeting, Holder};
use agent_gate::Gate;
use game_text::Game;
use line_protocol::Verdict;
use tac_base::Agent;
use tac_base::limits::{AGENTS, LINKS};
use tac_io::{Failed, LineGot, Lines, Link, Links};

/// The number of seats: one for each agent.
const SEATS: usize = AGENTS as usize;

/// The line that a link without a seat is sent.
fn refusal(verdict: &Verdict) -> &'static [u8]
    ensures { result.now ≡ refusal_line verdict.now }
{
    match verdict {
        Verdict::Syntax => b"refused syntax\n",
        Verdict::WrongWord => b"refused wrongword\n",
        Verdict::Taken => b"refused taken\n",
        Verdict::Seated(_) | Verdict::Lost => b"",
    }
}

/// The agent that a verdict seats.
fn seat(verdict: &Verdict) -> Option<Agent>
    ensures { result ≡ seat_of verdict.now }
{
    match verdict {
        Verdict::Seated(agent) => Some(*agent),
        _ => None,
    }
}

/// Reads the first line of a link, and returns the verdict on it.
fn first_verdict<L: Link>(gate: &mut Gate, lines: &mut Lines<L>) -> Verdict
    requires unread { (held_of lines.old).unread ≡ [] }
    requires count { count_of lines.old ≡ 0 }
    requires last { last_of lines.old ≡ None }
    ensures read { IsFirstRead L.state gate.old result (L.state (link_of lines.old)) lines.new }
    ensures seats { gate.new ≡ seats_after gate.old result }
{
    match lines.next() {
        LineGot::Line => gate.admit(lines.line()),
        LineGot::TooLong => Verdict::Syntax,
        LineGot::End | LineGot::Failed | LineGot::Budget => Verdict::Lost,
    }
}

/// Sends a link its refusal.
fn turn_away<L: Link>(verdict: &Verdict, mut lines: Lines<L>) -> L
    ensures { IsOnlySent (refusal_line verdict.now) (L.state (link_of lines)) (L.state result) }
{
    let _ = lines.send(refusal(verdict));
    lines.into_link()
}

/// Reads the first line of a link, and refuses the link if it gets no seat.
fn greet<L: Link>(gate: &mut Gate, link: L) -> Greeting<L>
    ensures { IsGreeting L.state gate.old gate.new (L.state link) result }
{
    let mut lines = Lines::new(link);
    let verdict = first_verdict(gate, &mut lines);
    match seat(&verdict) {
        Some(agent) => Greeting::Seated(agent, lines),
        None => {
            let link = turn_away(&verdict, lines);
            Greeting::Unseated(verdict, link)
        }
    }
}

/// Admits or refuses a link, and returns whether it has a seat.
fn take_in<L: Link + Drop>(gate: &mut Gate, arrivals: &mut Arrivals<L>, link: L) -> bool
    requires verdicts { vec_len arrivals.old.verdicts < vec_capacity arrivals.old.verdicts }
    requires holders { vec_len arrivals.old.holders < vec_capacity arrivals.old.holders }
    requires seats { vec_len arrivals.old.lines ≡ AGENTS }
    ensures taken { IsTakenIn L.state gate.old gate.new (L.state link) arrivals.old arrivals.new result }
    ensures verdicts { (vec_len arrivals.new.verdicts ≡ vec_len arrivals.old.verdicts + 1) × (vec_capacity arrivals.new.verdicts ≡ vec_capacity arrivals.old.verdicts) }
    ensures holders { (vec_len arrivals.new.holders ≡ vec_len arrivals.old.holders + 1) × (vec_capacity arrivals.new.holders ≡ vec_capacity arrivals.old.holders) }
    ensures seats { vec_len arrivals.new.lines ≡ AGENTS }
{
    match greet(gate, link) {
        Greeting::Seated(agent, lines) => {
            arrivals.verdicts.push_reserved(Verdict::Seated(agent));
            arrivals.holders.push_reserved(Holder::Seat(agent));
            arrivals.lines[usize::from(agent.get())] = Some(lines);
            true
        }
        Greeting::Unseated(verdict, link) => {
            arrivals.verdicts.push_reserved(verdict);
            arrivals.holders.push_reserved(Holder::Unseated(link));
            false
        }
    }
}

/// Listens, and takes links until eight seats are taken, 64 links were taken, or no link is left.
pub(crate) fn admit<N: Links>(
    game: &Game,
    port: u16,
    links: &mut N,
    arrivals: &mut Arrivals<N::Link>,
) -> Result<(), Failed>
    requires ports { IfSome (N.state links.old).ports (λ ports. ports ≡ []) }
    requires none { (arrivals.old.verdicts.items ≡ []) × (arrivals.old.holders.items ≡ []) }
    requires free { arrivals.old.lines.items ≡ replicate AGENTS None }
    requires room { (vec_capacity arrivals.old.verdicts ≡ LINKS) × (vec_capacity arrivals.old.holders ≡ LINKS) }
    ensures taken { AreTaken N.Link.state game.now (N.state links.old).pending (N.state links.new).pending arrivals.new }
    ensures no_fewer { OnOk result (MayGoOn arrivals.new.verdicts.items → IsAtEnd (N.state links.new).pending) }
    ensures more { OnErr result (MayGoOn arrivals.new.verdicts.items) }
    ensures few { vec_len arrivals.new.holders ≤ LINKS }
    ensures ports { (N.state links.new).ports ≡ known_then (N.state links.old).ports (port ∷ []) }
    ensures cause { HasCause (N.state links.old).faults (N.state links.new).faults result }
{
    links.listen(port)?;
    let mut gate = Gate::new(game);
    let mut seated = 0;
    while seated < SEATS && arrivals.verdicts.len() < LINKS as usize {
        let Some(link) = links.next()? else {
            return Ok(());
        };
        if take_in(&mut gate, arrivals, link) {
            seated += 1;
        }
    }
    Ok(())
}
