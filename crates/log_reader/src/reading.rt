ghost use Rattle.std.specs.Prelude.{◌≡◌, ◌≤◌, ◌<◌, ◌↔◌, false, length, IfOk, Ok, Err};
ghost use Rattle.log_reader.specs.{parts_of, lines_from, or_log_fault, IsLogReading};
ghost use Rattle.log_text.specs.LoggedGames.{LoggedGame, IsLogged, logged_text};
ghost use Rattle.log_reader.specs.LogReading as reading;
ghost use Rattle.log_reader.specs.Logs.{log_of};

use crate::cash::cash_in;
use crate::head::head_in;
use crate::histories::Histories;
use crate::log_lines::{LogLines, text_at};
use crate::parts::read_all;
use crate::scores::Scores;
use crate::{Log, LogFault};
use std::alloc::Global;
use tac_base::limits::TEXT_BYTES;

/// Reads a log from a text that is not too long.
fn log_in(alloc: Global, text: &[u8]) -> Result<Log, LogFault>
    requires { length text.now ≤ TEXT_BYTES }
    ensures { IsLogReading (λ log. log) result (or_log_fault (reading.log_in (lines_from false 1 (parts_of 10 text.now)))) }
{
    let (head, left) = head_in(alloc, LogLines::new(text))?;
    let (histories, left) = read_all(alloc, &Histories, 28, left)?;
    let (cash, left) = cash_in(alloc, left)?;
    let (_, left) = text_at(b"sheet", left)?;
    let (scores, left) = read_all(alloc, &Scores, 8, left)?;
    let (_, left) = text_at(b"end", left)?;
    left.finish()?;
    Ok(Log {
        head,
        histories,
        cash,
        scores,
    })
}

/// Reads the text of a log: its first and second parts together, and nothing else. It tests only forms and ranges.
pub fn read_log(alloc: Global, text: &[u8]) -> Result<Log, LogFault>
    // It returns the log or the first bad line, unless a memory allocation failed.
    ensures exact { IsLogReading (λ log. log) result (log_of text.now) }
    ensures too_long { (result ≡ Err LogFault.TooLong) ↔ (TEXT_BYTES < length text.now) }
    // The text is that of the log, and the log is in its ranges.
    ensures found { IfOk result (λ log. (text.now ≡ logged_text log) × IsLogged log) }
    // The text of each log in its ranges is read as that log.
    ensures only { (log : LoggedGame) → IsLogged log → length text.now ≤ TEXT_BYTES → text.now ≡ logged_text log → log_of text.now ≡ Ok log }
{
    if text.len() > TEXT_BYTES as usize {
        return Err(LogFault::TooLong);
    }
    log_in(alloc, text)
}
