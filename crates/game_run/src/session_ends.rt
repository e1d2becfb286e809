// Gathers the ends of the sessions, and puts links back in the order in which they came.
ghost use Rattle.std.specs.Prelude.{◌≡◌, ◌∷◌, [], ◌<◌, ◌≤◌, map, vec_len, vec_capacity, option_map};
ghost use Rattle.tac_io.specs.Lines.{link_of};
ghost use Rattle.game_run.specs.{HasCapacity, IsAgents, TakesCapacity, AreFilled, AreLinksOf, IsFilled, IsLinkOf, agent_seats_after, AreBoth, eight_of, four_of, two_of};
ghost use Rattle.game_run.specs.Gathering.{AddsPlayed};

use crate::arrivals::Holder;
use crate::sessions::{Eight, Four, PlayedSeat, Two};
use floor::Desk;
use line_protocol::Cause;
use tac_base::Agent;
use tac_io::{Lines, Link};

/// The ends of the sessions, in the order of the agents.
#[derive(Drop)]
pub(crate) struct SessionEnds<L> {
    pub(crate) desks: Vec<Desk>,
    /// The cause of the end of each seated agent's session.
    pub(crate) ends: Vec<(Agent, Cause)>,
    /// The link of each agent, if it has one.
    pub(crate) links: Vec<Option<L>>,
}

impl<L> SessionEnds<L> {
    // Adds an agent's seat after the game.
    fn add(&mut self, played: PlayedSeat<L>)
        requires room { HasCapacity self.old 1 }
        requires agent { IsAgents played }
        ensures gathers { AddsPlayed self.old self.new (played ∷ []) }
        ensures room { TakesCapacity self.old self.new 1 }
    {
        let PlayedSeat { desk, end } = played;
        match end {
            Some((link, cause)) => {
                let agent = Agent::new(desk.caller().get()).unwrap();
                self.ends.push_reserved((agent, cause));
                self.links.push_reserved(Some(link));
            }
            None => self.links.push_reserved(None),
        }
        self.desks.push_reserved(desk);
    }

    fn add_two(&mut self, two: Two<PlayedSeat<L>>)
        requires room { HasCapacity self.old 2 }
        requires agents { AreBoth IsAgents two }
        ensures gathers { AddsPlayed self.old self.new (two_of two) }
        ensures room { TakesCapacity self.old self.new 2 }
    {
        let Two { first, second } = two;
        self.add(first);
        self.add(second);
    }

    fn add_four(&mut self, four: Four<PlayedSeat<L>>)
        requires room { HasCapacity self.old 4 }
        requires agents { AreBoth (AreBoth IsAgents) four }
        ensures gathers { AddsPlayed self.old self.new (four_of four) }
        ensures room { TakesCapacity self.old self.new 4 }
    {
        let Two { first, second } = four;
        self.add_two(first);
        self.add_two(second);
    }

    /// Adds the seats of all agents after the game.
    pub(crate) fn add_eight(&mut self, eight: Eight<PlayedSeat<L>>)
        requires room { HasCapacity self.old 8 }
        requires agents { AreBoth (AreBoth (AreBoth IsAgents)) eight }
        ensures gathers { AddsPlayed self.old self.new (eight_of eight) }
        ensures room { TakesCapacity self.old self.new 8 }
    {
        let Two { first, second } = eight;
        self.add_four(first);
        self.add_four(second);
    }
}

// Returns the link of the lines, if there are any.
fn link_in<L: Link>(lines: Option<Lines<L>>) -> Option<L>
    ensures { result ≡ option_map link_of lines }
{
    match lines {
        Some(lines) => Some(lines.into_link()),
        None => None,
    }
}

/// Returns the links of the agents, none of which had a session.
pub(crate) fn without_sessions<L: Link + Drop>(
    seated: Vec<Option<Lines<L>>>,
    mut links: Vec<Option<L>>,
) -> Vec<Option<L>>
    requires room { (links.items ≡ []) × (vec_len seated ≤ vec_capacity links) }
    ensures { result.items ≡ map (option_map link_of) seated.items }
{
    for lines in seated {
        links.push_reserved(link_in(lines));
    }
    links
}

// Takes the link of a holder.
fn link_at<L>(agent_seats: &mut Vec<Option<L>>, holder: Holder<L>) -> L
    requires { IsFilled agent_seats.old.items holder }
    ensures link { IsLinkOf agent_seats.old.items holder result }
    ensures rest { agent_seats.new.items ≡ agent_seats_after agent_seats.old.items holder }
{
    match holder {
        Holder::Unseated(link) => link,
        Holder::Seat(agent) => agent_seats[usize::from(agent.get())].take().unwrap(),
    }
}

/// Returns all links in the order in which they came.
pub(crate) fn in_order<L: Drop>(
    holders: Vec<Holder<L>>,
    mut agent_seats: Vec<Option<L>>,
    mut links: Vec<L>,
) -> Vec<L>
    requires filled { AreFilled agent_seats.items holders.items }
    requires room { (links.items ≡ []) × (vec_len holders ≤ vec_capacity links) }
    ensures { AreLinksOf agent_seats.items holders.items result.items }
{
    for holder in holders {
        let link = link_at(&mut agent_seats, holder);
        links.push_reserved(link);
    }
    links
}
