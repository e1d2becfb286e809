// The standard output of the system.
ghost use Rattle.std.specs.Prelude.{◌≡◌, ◌<◌, None, length};
ghost use Rattle.std.specs.Io.KnownBytes.{WriteAppends};
ghost use Rattle.tacd.specs.Prelude.{HasCause, NotesFailure, Takes};

use std::io::Write;
use tac_io::{Failed, Sink};

/// A writer of the system as a sink. It counts its faults. No clause says what it took; for every writer whose content is known, a clause
/// of `write` says that the writer took just that.
#[derive(Drop)]
pub(crate) struct StdSink<W> {
    writer: W,
    faults: u64,
}

impl<W: Write> StdSink<W> {
    /// Nothing was written yet.
    pub(crate) fn new(writer: W) -> StdSink<W>
        ensures { result.faults ≡ 0 }
    {
        StdSink { writer, faults: 0 }
    }
}

impl<W: Write> Sink for StdSink<W> {
    ghost use Rattle.std.specs.Prelude.{None};

    ghost state = { λ s. record { taken = None; faults = s.faults; failures = None } };

    fn write(&mut self, piece: &[u8]) -> Result<usize, Failed>
        ensures bytes { Takes None None result piece.now }
        ensures cause { HasCause self.old.faults self.new.faults result }
        ensures noted { NotesFailure None None None result }
        ensures passed { WriteAppends (W.contents self.old.writer) (W.contents self.new.writer) result piece.now }
    {
        match self.writer.write(piece) {
            Ok(count) if count > 0 => Ok(count),
            _ => {
                self.faults = self.faults.saturating_add(1);
                Err(Failed)
            }
        }
    }

    fn faults(&self) -> u64 {
        self.faults
    }
}
