// Finds a `quit` among the lines of a link whose replies did not arrive.
ghost use Rattle.std.specs.Prelude.{◌≡◌, ◌-◌, ◌≤◌, ◌↔◌, IfOk, IsTrue, Ok, length, take};
ghost use Rattle.tac_base.specs.declared.limits.TheConstants.{LINK_BYTES, SESSION_LINES as MOST_LINES};
ghost use Rattle.line_protocol.specs.declared.asking.Request.TheVariants as requests;
ghost use Rattle.link_audit.specs.Prelude.{Asks, IsItem, ended_line};
ghost use Rattle.link_audit.specs.Links.{AsksToLeave, MayAsk};
ghost use Rattle.link_audit.specs.Walks.{HasStayed, lines_at};

use crate::causes::Ending;
use crate::known::KnownDialect;
use crate::lines::line_end;
use line_protocol::{Request, RequestFault};
use tac_base::Memory;
use tac_base::limits::{LINE_BYTES, SESSION_LINES};

/// Whether this is the request to leave.
fn is_leaving(asked: &Result<Request, RequestFault>) -> bool
    ensures { IsTrue result ↔ (asked.now ≡ Ok requests.Quit) }
{
    matches!(asked, Ok(Request::Quit))
}

/// Whether a line whose reply did not arrive may be read as `quit`.
fn is_quit<D: KnownDialect>(dialect: &D, line: &[u8]) -> Result<bool, Memory>
    ensures { IfOk result (λ is. IsTrue is ↔ IsItem (MayAsk (D.form dialect.now).may_answer) (ended_line line.now) (Asks (Ok requests.Quit))) }
{
    if line.len() > LINE_BYTES as usize {
        return Ok(false);
    }
    let asked = dialect.asks(line, false, &[])?;
    Ok(is_leaving(&asked))
}

/// Whether one of the lines from a place on, as many as a session has room for after `lines` others, may be read as `quit`.
fn may_leave<D: KnownDialect>(
    dialect: &D,
    asked: &[u8],
    from: usize,
    lines: u32,
) -> Result<bool, Memory>
    requires short { (from ≤ length asked.now) × (length asked.now ≤ LINK_BYTES) }
    ensures { IfOk result (λ may. IsTrue may ↔ AsksToLeave (D.form dialect.now) (take (MOST_LINES - lines) (lines_at asked.now from))) }
{
    let mut at = from;
    for _line in lines..SESSION_LINES {
        let Some(end) = line_end(asked, at) else {
            return Ok(false);
        };
        let quits = is_quit(dialect, &asked[at..end])?;
        if quits {
            return Ok(true);
        }
        at = end + 1;
    }
    Ok(false)
}

/// Whether a session may have no more lines than these.
fn is_full(lines: u32) -> bool
    ensures { IsTrue result ↔ (lines ≡ MOST_LINES) }
{
    lines == SESSION_LINES
}

/// What the lines from a place on show of the end of a session of which `lines` others were answered, if the agent did not leave by these.
pub(crate) fn open_ending<D: KnownDialect>(
    dialect: &D,
    asked: &[u8],
    from: usize,
    lines: u32,
) -> Result<Ending, Memory>
    requires short { (from ≤ length asked.now) × (length asked.now ≤ LINK_BYTES) }
    ensures { IfOk result (HasStayed (D.form dialect.now) lines (lines_at asked.now from)) }
{
    let quits = may_leave(dialect, asked, from, lines)?;
    let full = is_full(lines);
    match line_end(asked, from) {
        None => Ok(Ending::Open {
            full,
            over: true,
            quits,
        }),
        Some(_) => Ok(Ending::Open {
            full,
            over: false,
            quits,
        }),
    }
}
