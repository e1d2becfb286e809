// Writes the second part of a log.
ghost use Rattle.std.specs.Prelude.{OnOk};
ghost use Rattle.log_text.specs.SheetText.{sheet_part};
ghost use Rattle.log_text.specs.LoggedSheet.{IsShownSheet};
ghost use Rattle.game_log.specs.SheetWritten.{WritesMade};

use crate::LogWriteFault;
use crate::sheet_known::sheet_known;
use log_text::print_sheet;
use score_sheet::Sheet;
use std::alloc::Global;
use tac_io::{Sink, write_all};

/// Writes the second part of the log of a game: each agent's score, an allocation of its goods, and a certificate. It builds the
/// part in memory and then writes it, so after `Memory` nothing was written. It returns `Failed` exactly if the sink counted a fault
/// in this call; then only some of the part's first bytes, or none, were written. This project defines the form of the log.
pub fn write_sheet_part<K: Sink>(
    alloc: Global,
    sink: &mut K,
    sheet: &Sheet,
) -> Result<(), LogWriteFault>
    ensures text { WritesMade (sheet_part sheet.now) (K.state sink.old) (K.state sink.new) result }
    // What was written meets the requirement of the law of logs.
    ensures known { OnOk result (IsShownSheet sheet.now) }
{
    sheet_known(sheet);
    let Ok(text) = print_sheet(alloc, sheet) else {
        return Err(LogWriteFault::Memory);
    };
    match write_all(sink, text.as_slice()) {
        Ok(()) => Ok(()),
        Err(_) => Err(LogWriteFault::Failed),
    }
}
