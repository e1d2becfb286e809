use crate::{Cause, Verdict};
use tac_base::Agent;

/// How a game was played, as its log says. Contracts see it as the `Head` that `head_of` gives, with plain lists.
#[derive(Debug, PartialEq, Eq, Drop)]
pub enum LogHead {
    /// From a script, on one thread.
    Play,
    /// Over links.
    Serve {
        /// The verdict on each link that was taken, in order of arrival.
        verdicts: Vec<Verdict>,
        /// Why the session of each seated agent ended, in ascending order of agents.
        ends: Vec<(Agent, Cause)>,
        /// How many of the 54 ticks were missed.
        missed: u8,
    },
}
