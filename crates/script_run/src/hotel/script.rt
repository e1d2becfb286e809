// Runs a hotel from a script.
ghost use Rattle.std.specs.Prelude.{◌≡◌, ◌≤◌, length};
ghost use Rattle.script_run.specs.HotelOuts.{RunsScript, RunsLines, BeginsHotel};

use crate::hotel::run::HotelRun;
use crate::{ScriptFault, ScriptReason};
use std::alloc::Global;
use tac_base::limits::TEXT_BYTES;
use tac_io::{Sink, write_all};
use text_forms::cut;

/// Opens the hotel, before the first line.
fn begun(alloc: Global) -> Result<HotelRun, ScriptFault>
    ensures { BeginsHotel result }
{
    match HotelRun::new(alloc) {
        Ok(run) => Ok(run),
        Err(_) => Err(ScriptFault::Memory),
    }
}

/// Runs all lines of a script.
fn run_lines(alloc: Global, script: &[u8]) -> Result<HotelRun, ScriptFault>
    ensures { RunsLines script.now result }
{
    let mut run = begun(alloc)?;
    let mut rest = script;
    while let Some((line, after)) = cut(rest, b'\n') {
        run.step(line)?;
        rest = after;
    }
    if rest.is_empty() {
        Ok(run)
    } else {
        Err(ScriptFault::Line {
            line: run.lines() + 1,
            reason: ScriptReason::NoLineEnd.number(),
        })
    }
}

/// Runs one hotel, the first night of Shoreline Shanties, by the lines of a script, and writes the
/// replies and trades. It tests all lines before it writes anything.
pub fn run_hotel_script<K: Sink>(
    alloc: Global,
    text: &[u8],
    sink: &mut K,
) -> Result<(), ScriptFault>
    ensures { RunsScript text.now (K.state sink.old) (K.state sink.new) result }
{
    if text.len() > TEXT_BYTES as usize {
        return Err(ScriptFault::TooLong);
    }
    let run = run_lines(alloc, text)?;
    match write_all(sink, run.text()) {
        Ok(()) => Ok(()),
        Err(_) => Err(ScriptFault::Failed),
    }
}
