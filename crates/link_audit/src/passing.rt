// Walks over the lines of a link whose replies did not arrive.
ghost use Rattle.std.specs.Prelude.{◌≡◌, ◌+◌, ◌<◌, ◌≤◌, ◌↔◌, IfOk, IsTrue, length};
ghost use Rattle.tac_base.specs.declared.limits.TheConstants.{LINK_BYTES};
ghost use Rattle.link_audit.specs.{HasTruePosts, IsTable, IsWide, subject_of, IsKept, HasPassed, IsPassed, lines_at};

use crate::known::KnownDialect;
use crate::leftovers::first_left;
use crate::lines::line_end;
use crate::places::Places;
use crate::stepping::{Step, step_line};
use crate::vouching::Difference;
use log_reader::Log;
use tac_base::limits::SESSION_LINES;
use tac_base::{Agent, Board, Memory};

/// Whether two lists have the same numbers.
fn same_numbers(a: &[u32], b: &[u32]) -> bool
    ensures { IsTrue result ↔ (a.now ≡ b.now) }
{
    a == b
}

/// One more than a count, if a line left a call or a reading in the log.
fn count_if_moved(count: u32, before: &Places, after: &Places) -> u32
    requires { count < SESSION_LINES }
    ensures kept { IsKept before.now after.now → result ≡ count }
    ensures moved { (IsKept before.now after.now → ⊥) → result ≡ count + 1 }
{
    if before.readings == after.readings
        && same_numbers(before.made.as_slice(), after.made.as_slice())
    {
        count
    } else {
        count + 1
    }
}

/// Walks over the lines whose replies did not arrive, from the places that the earlier lines reached, until the log has nothing more of the
/// agent. Returns how many of them left a call or a reading in the log, or the lowest entry that none of them left.
pub(crate) fn pass<D: KnownDialect>(
    log: &Log,
    boards: &[Vec<Board>],
    agent: Agent,
    dialect: &D,
    asked: &[u8],
    from: usize,
    reached: &Places,
    lines: u32,
) -> Result<Result<u32, Difference>, Memory>
    requires posts { HasTruePosts log.now }
    requires table { IsTable boards.now }
    requires short { (from ≤ length asked.now) × (length asked.now ≤ LINK_BYTES) }
    requires wide { IsWide reached.now }
    requires few { lines ≤ SESSION_LINES }
    ensures ahead { IfOk result (IsPassed (D.form dialect.now) (subject_of log.now boards.now agent) reached.now (lines_at asked.now from) lines) }
    ensures turns { IfOk result (HasPassed (D.form dialect.now) (subject_of log.now boards.now agent) reached.now (lines_at asked.now from) lines) }
{
    let mut places = *reached;
    let mut at = from;
    let mut count = 0;
    for line in lines..SESSION_LINES {
        let Some(left) = first_left(log, agent, &places) else {
            return Ok(Ok(count));
        };
        let Some(end) = line_end(asked, at) else {
            return Ok(Err(left));
        };
        let before = places;
        match step_line(
            log,
            boards,
            agent,
            &mut places,
            dialect,
            &asked[at..end],
            false,
            &[],
        )? {
            Step::Stays => {}
            Step::Leaves => return Ok(Err(left)),
            Step::Stuck => return Ok(Err(left)),
        }
        count = count_if_moved(count, &before, &places);
        at = end + 1;
    }
    match first_left(log, agent, &places) {
        None => Ok(Ok(count)),
        Some(left) => Ok(Err(left)),
    }
}
