// Finds what a log still has of an agent.
ghost use Rattle.std.specs.Prelude.{◌≡◌, ◌↔◌, List, None, IfSome};
ghost use Rattle.std.specs.Global.{Vec as SeenVec};
ghost use Rattle.tac_base.specs.declared.calls.Board.{Board};
ghost use Rattle.link_audit.specs.{IsOver, subject_of, IsLowestLeft};

use crate::cash::next_cash;
use crate::goods::good_of;
use crate::next::next_entry;
use crate::places::Places;
use crate::vouching::Difference;
use log_reader::Log;
use tac_base::Agent;
use tac_base::limits::GOODS;

/// The agent's first entry at or after these places, the lowest good first and the cash history last.
pub(crate) fn first_left(log: &Log, agent: Agent, places: &Places) -> Option<Difference>
    ensures none { (boards : List (SeenVec Board)) → (result ≡ None) ↔ IsOver (subject_of log.now boards agent) places.now }
    ensures lowest { IfSome result (λ left. (boards : List (SeenVec Board)) → IsLowestLeft (subject_of log.now boards agent) places.now left) }
{
    for number in 0..GOODS {
        let good = good_of(number);
        if let Some(position) = next_entry(
            log.history(good),
            places.next[usize::from(number)],
            agent,
        ) {
            return Some(Difference::Entry { good, position });
        }
    }
    match next_cash(log, places.cash, agent) {
        Some(position) => Some(Difference::Cash(position)),
        None => None,
    }
}
