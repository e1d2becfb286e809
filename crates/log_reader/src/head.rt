// Reads the lines before the histories.
ghost use Rattle.std.specs.Prelude.{◌≡◌};
ghost use Rattle.line_protocol.specs.Heads.{head_of};
ghost use Rattle.log_reader.specs.HeadForms as forms;
ghost use Rattle.log_reader.specs.LogReading as reading;
ghost use Rattle.log_reader.specs.Faults.{or_log_fault, IsLogReading};

use crate::LogFault;
use crate::line_forms::{end_of, link_of, missed_of};
use crate::log_lines::{LogLines, text_at, well_formed};
use crate::parts::{LogPart, read_while};
use line_protocol::{Cause, LogHead, Verdict};
use std::alloc::Global;
use tac_base::Agent;
use tac_base::limits::{LOG_LINKS, TEXT_BYTES};
use text_forms::BadLine;

/// The links, in order of arrival.
#[derive(Drop)]
struct Links;

impl LogPart for Links {
    ghost use Rattle.tac_base.specs.declared.limits.TheConstants.{LOG_LINKS};
    ghost use Rattle.log_reader.specs.HeadForms as forms;
    ghost use Rattle.log_reader.specs.LogReading as reading;

    type Value = Verdict;

    ghost gives = { λ _ place left. reading.line_by (forms.read_link place) left };

    ghost most = { λ _. LOG_LINKS };

    fn read<'a>(
        &self,
        alloc: Global,
        number: u32,
        lines: LogLines<'a>,
    ) -> Result<(Verdict, LogLines<'a>), LogFault> {
        Ok(link_at(number as u8, lines)?)
    }
}

/// Reads the line of the link at this place.
fn link_at<'a>(place: u8, lines: LogLines<'a>) -> Result<(Verdict, LogLines<'a>), BadLine>
    ensures { result ≡ reading.line_by (forms.read_link place) lines.entry }
{
    let (line, left) = lines.due()?;
    let verdict = well_formed(line.number(), link_of(place, line.bytes()))?;
    Ok((verdict, left))
}

/// The ends of sessions.
#[derive(Drop)]
struct Ends;

impl LogPart for Ends {
    ghost use Rattle.tac_base.specs.declared.limits.TheConstants.{TEXT_BYTES};
    ghost use Rattle.log_reader.specs.HeadForms as forms;
    ghost use Rattle.log_reader.specs.LogReading as reading;

    type Value = (Agent, Cause);

    ghost gives = { λ _ _ left. reading.line_by forms.read_end left };

    ghost most = { λ _. TEXT_BYTES };

    fn read<'a>(
        &self,
        alloc: Global,
        number: u32,
        lines: LogLines<'a>,
    ) -> Result<((Agent, Cause), LogLines<'a>), LogFault> {
        Ok(end_at(lines)?)
    }
}

/// Reads the line of a session's end.
fn end_at(lines: LogLines<'_>) -> Result<((Agent, Cause), LogLines<'_>), BadLine>
    ensures { result ≡ reading.line_by forms.read_end lines.entry }
{
    let (line, left) = lines.due()?;
    let end = well_formed(line.number(), end_of(line.bytes()))?;
    Ok((end, left))
}

/// Reads the line of the number of missed ticks.
fn missed_at(lines: LogLines<'_>) -> Result<(u8, LogLines<'_>), BadLine>
    ensures { result ≡ reading.line_by forms.read_missed lines.entry }
{
    let (line, left) = lines.due()?;
    let missed = well_formed(line.number(), missed_of(line.bytes()))?;
    Ok((missed, left))
}

/// Reads the verdict on each link, the cause of each session's end, and the number of missed ticks.
fn served_in(alloc: Global, lines: LogLines<'_>) -> Result<(LogHead, LogLines<'_>), LogFault>
    ensures { IsLogReading (λ x. (head_of x.0, x.1)) result (or_log_fault (reading.served_in lines.entry)) }
{
    let (verdicts, left) = read_while(alloc, &Links, b"link", LOG_LINKS, lines)?;
    let (ends, left) = read_while(alloc, &Ends, b"end", TEXT_BYTES, left)?;
    let (missed, left) = missed_at(left)?;
    Ok((
        LogHead::Serve {
            verdicts,
            ends,
            missed,
        },
        left,
    ))
}

/// Whether a line says that the game was played over links, and not from a script.
fn is_served(line: &[u8]) -> Option<bool>
    ensures { result ≡ reading.is_served line.now }
{
    if line == b"play".as_slice() {
        Some(false)
    } else if line == b"serve".as_slice() {
        Some(true)
    } else {
        None
    }
}

/// Reads the line that says how the game was played.
fn served_at(lines: LogLines<'_>) -> Result<(bool, LogLines<'_>), BadLine>
    ensures { result ≡ reading.line_by reading.is_served lines.entry }
{
    let (line, left) = lines.due()?;
    let served = well_formed(line.number(), is_served(line.bytes()))?;
    Ok((served, left))
}

/// Reads the title and how the game was played.
pub(crate) fn head_in(
    alloc: Global,
    lines: LogLines<'_>,
) -> Result<(LogHead, LogLines<'_>), LogFault>
    ensures { IsLogReading (λ x. (head_of x.0, x.1)) result (or_log_fault (reading.head_in lines.entry)) }
{
    let (_, left) = text_at(b"taclog 1", lines)?;
    let (served, left) = served_at(left)?;
    if served {
        served_in(alloc, left)
    } else {
        Ok((LogHead::Play, left))
    }
}
