// Finds an agent's next entry in a history.
ghost use Rattle.std.specs.Prelude.{◌<◌, IfSome};
ghost use Rattle.link_audit.specs.Ahead.{FindsNext, entry_caller};

use log_reader::LogHistory;
use tac_base::Agent;
use tac_base::limits::AUCTION_ENTRIES;

/// The position of the agent's next entry in a history, at or after a position.
pub(crate) fn next_entry(history: &LogHistory, from: u32, agent: Agent) -> Option<u32>
    ensures next { FindsNext entry_caller agent from history.now result }
    ensures few { IfSome result (λ p. p < AUCTION_ENTRIES) }
{
    for position in from..history.len() {
        let entry = history.entry(position).unwrap();
        if entry.caller == agent.caller() {
            return Some(position);
        }
    }
    None
}
