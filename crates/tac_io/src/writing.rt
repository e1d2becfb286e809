// Whole texts to a sink.
ghost use Rattle.tac_io.specs.Written.{WritesPiece};

use crate::{Failed, Sink};

/// Writes all bytes to the sink, in as many writes as needed, and in none if there are no bytes.
/// It returns `Failed` exactly if the sink counted a fault in this call. Then it wrote some of the
/// first bytes, or none, but not all, and wrote nothing after the fault.
pub fn write_all<K: Sink>(sink: &mut K, bytes: &[u8]) -> Result<(), Failed>
    ensures { WritesPiece bytes.now (K.state sink.old) (K.state sink.new) result }
{
    let mut done = 0;
    while done < bytes.len() {
        let (_, rest) = bytes.split_at(done);
        done += sink.write(rest)?;
    }
    Ok(())
}
