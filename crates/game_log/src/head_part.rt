// Writes the head of a log, line by line.
ghost use Rattle.std.specs.List.{flat_map, enumerate_from};
ghost use Rattle.line_protocol.specs.Heads.{Serve, head_of};
ghost use Rattle.log_text.specs.LogText as log;
ghost use Rattle.game_log.specs.Gathering.{Gathers};

use crate::LogHead;
use crate::gathered::Gathered;
use line_protocol::{Cause, Verdict};
use log_text::{end_line, link_line, missed_line};
use tac_base::Agent;
use tac_io::{Failed, Sink};

/// Writes the line of each link, in order of arrival.
fn write_links<K: Sink>(
    sink: &mut K,
    gathered: &mut Gathered,
    verdicts: &[Verdict],
) -> Result<(), Failed>
    ensures { Gathers (flat_map log.link_line (enumerate_from 0 verdicts.now)) gathered.old gathered.new (K.state sink.old) (K.state sink.new) result }
{
    for (place, verdict) in verdicts.iter().enumerate() {
        gathered.add(sink, link_line(place as u64, *verdict).as_slice())?;
    }
    Ok(())
}

/// Writes the line of each session's end.
fn write_ends<K: Sink>(
    sink: &mut K,
    gathered: &mut Gathered,
    ends: &[(Agent, Cause)],
) -> Result<(), Failed>
    ensures { Gathers (flat_map log.end_line ends.now) gathered.old gathered.new (K.state sink.old) (K.state sink.new) result }
{
    for end in ends {
        gathered.add(sink, end_line(end).as_slice())?;
    }
    Ok(())
}

/// Writes the lines about the links of a game.
fn write_served<K: Sink>(
    sink: &mut K,
    gathered: &mut Gathered,
    verdicts: &[Verdict],
    ends: &[(Agent, Cause)],
    missed: u8,
) -> Result<(), Failed>
    ensures { Gathers (log.head_text (Serve verdicts.now ends.now missed)) gathered.old gathered.new (K.state sink.old) (K.state sink.new) result }
{
    gathered.add(sink, b"serve\n")?;
    write_links(sink, gathered, verdicts)?;
    write_ends(sink, gathered, ends)?;
    gathered.add(sink, missed_line(missed).as_slice())
}

/// Writes how a game was played.
fn write_kind<K: Sink>(sink: &mut K, gathered: &mut Gathered, head: &LogHead) -> Result<(), Failed>
    ensures { Gathers (log.head_text (head_of head.now)) gathered.old gathered.new (K.state sink.old) (K.state sink.new) result }
{
    match head {
        LogHead::Play => gathered.add(sink, b"play\n"),
        LogHead::Serve {
            verdicts,
            ends,
            missed,
        } => write_served(
            sink,
            gathered,
            verdicts.as_slice(),
            ends.as_slice(),
            *missed,
        ),
    }
}

/// Writes the head of a log.
pub(crate) fn write_head<K: Sink>(
    sink: &mut K,
    gathered: &mut Gathered,
    head: &LogHead,
) -> Result<(), Failed>
    ensures { Gathers (log.first_lines (head_of head.now)) gathered.old gathered.new (K.state sink.old) (K.state sink.new) result }
{
    match gathered.add(sink, b"taclog 1\n") {
        Ok(()) => write_kind(sink, gathered, head),
        Err(failed) => Err(failed),
    }
}
