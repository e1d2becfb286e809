// The links that were taken, in order, each with its verdict.
use line_protocol::Verdict;
use tac_base::Agent;
use tac_io::Lines;

/// A link after its first line.
#[derive(Drop)]
pub(crate) enum Greeting<L> {
    Seated(Agent, Lines<L>),
    Unseated(Verdict, L),
}

/// Who holds a link: its agent's seat or, if it has no seat, admission.
#[derive(Drop)]
pub(crate) enum Holder<L> {
    Seat(Agent),
    Unseated(L),
}

/// The links that were taken, in order.
#[derive(Drop)]
pub(crate) struct Arrivals<L> {
    pub(crate) verdicts: Vec<Verdict>,
    pub(crate) holders: Vec<Holder<L>>,
    /// The lines of the seated links, in the order of the agents.
    pub(crate) lines: Vec<Option<Lines<L>>>,
}
