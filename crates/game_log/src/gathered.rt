// Gathers short texts, so that a sink gets few and long pieces.
ghost use Rattle.std.specs.Prelude.{◌≡◌, [], ◌≤◌, length, IfOk};
ghost use Rattle.tac_io.specs.Written.{WritesPiece};
ghost use Rattle.game_log.specs.Gathering.{Gathers};

use arrayvec::ArrayVec;
use std::marker::Model;
use tac_base::limits::REPLY_TEXT;
use tac_io::{Failed, Sink, write_all};

/// The number of bytes that a piece can hold: some hundred lines of a log.
const GATHERED_BYTES: usize = 8_192;

/// The bytes that the sink gets next.
#[derive(Drop)]
pub(crate) struct Gathered {
    bytes: ArrayVec<u8, GATHERED_BYTES>,
}

impl Model for Gathered {
    ghost use Rattle.std.specs.Prelude.{ℕ, List};

    ghost Value = { List ℕ };

    ghost view = { λ g. g.bytes.items };
}

impl Gathered {
    /// Holds no bytes.
    pub(crate) fn new() -> Gathered
        ensures { result ≡ [] }
    {
        Gathered {
            bytes: ArrayVec::new(),
        }
    }

    /// Writes the bytes that it holds, and then holds none.
    pub(crate) fn write<K: Sink>(&mut self, sink: &mut K) -> Result<(), Failed>
        ensures text { WritesPiece self.old (K.state sink.old) (K.state sink.new) result }
        ensures empty { IfOk result (λ _. self.new ≡ []) }
    {
        write_all(sink, self.bytes.as_slice())?;
        self.bytes.clear();
        Ok(())
    }

    /// Adds a text. If both do not fit, it first writes the bytes that it holds.
    pub(crate) fn add<K: Sink>(&mut self, sink: &mut K, text: &[u8]) -> Result<(), Failed>
        requires short { length text.now ≤ REPLY_TEXT }
        ensures { Gathers text.now self.old self.new (K.state sink.old) (K.state sink.new) result }
    {
        if text.len() > GATHERED_BYTES - self.bytes.len() {
            self.write(sink)?;
        }
        let _added = self.bytes.try_extend_from_slice(text);
        Ok(())
    }
}
