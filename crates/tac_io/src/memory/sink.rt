// A sink in memory.
ghost use Rattle.std.specs.Prelude.{◌≡◌, ◌+◌, ◌≤◌, [], IfOk, vec_len, vec_capacity};
ghost use Rattle.tac_io.specs.Calls.{no_calls_yet};

use crate::memory::failures::Failures;
use crate::memory::faults::Faults;
use crate::{Failed, Sink};
use std::alloc::{AllocError, Global};

/// A sink in memory. It keeps the bytes that it took, as many as it has room for, and fails at
/// the writes that the caller lists.
#[derive(Drop)]
pub struct MemSink {
    bytes: Vec<u8>,
    // How many more bytes it has room for.
    room: usize,
    most_at_once: usize,
    faults: Faults,
    failures: Failures,
    ghost reserved: { vec_len bytes + room ≤ vec_capacity bytes },
}

impl MemSink {
    ghost use Rattle.tac_io.specs.MemSink.{sink_bytes, sink_calls, sink_failures, sink_most, sink_room};

    /// Returns an empty sink with room for `room` bytes. A write takes at most `most_at_once`.
    /// `failing` lists the writes that are to fail, counted from 1. A write without room left also
    /// fails, and if `most_at_once` is 0, so does every write.
    pub fn new(
        alloc: Global,
        room: usize,
        most_at_once: usize,
        failing: Vec<u64>,
    ) -> Result<MemSink, AllocError>
        ensures bytes { IfOk result (λ sink. sink_bytes sink ≡ []) }
        ensures room { IfOk result (λ sink. sink_room sink ≡ room) }
        ensures most { IfOk result (λ sink. sink_most sink ≡ most_at_once) }
        ensures calls { IfOk result (λ sink. sink_calls sink ≡ no_calls_yet failing.items) }
        ensures failures { IfOk result (λ sink. sink_failures sink ≡ []) }
    {
        Ok(MemSink {
            bytes: Vec::with_capacity(alloc, room)?,
            room,
            most_at_once,
            faults: Faults::new(failing),
            failures: Failures::none(),
        })
    }

    /// Returns the bytes that it took, in order.
    pub fn bytes(&self) -> &[u8]
        ensures { result.now ≡ sink_bytes self.now }
    {
        &self.bytes
    }
}

impl Sink for MemSink {
    ghost use Rattle.std.specs.Prelude.{◌≡◌, ◌+◌, ◌⊎◌, ◌↔◌, ◌<◌, ◌++◌, ◌∷◌, [], Some, IsErr, IfOk, OnErr, length, take};
    ghost use Rattle.tac_io.specs.Calls.{IsNextToFail, after_call};
    ghost use Rattle.tac_io.specs.Counts.{HasCause};
    ghost use Rattle.tac_io.specs.MemSink.{sink_bytes, sink_calls, sink_failures, sink_most, sink_room, sink_share};

    ghost state = { λ s. record { taken = Some (sink_bytes s); faults = (sink_calls s).faults; failures = Some (sink_failures s) } };

    fn write(&mut self, piece: &[u8]) -> Result<usize, Failed>
        ensures fails { IsErr result ↔ (IsNextToFail (sink_calls self.old) ⊎ (sink_share self.old (length piece.now) ≡ 0)) }
        ensures share { IfOk result (λ n. n ≡ sink_share self.old (length piece.now)) }
        ensures some { IfOk result (λ n. 0 < n) }
        ensures taken { IfOk result (λ n. sink_bytes self.new ≡ sink_bytes self.old ++ take n piece.now) }
        ensures room { IfOk result (λ n. sink_room self.new + n ≡ sink_room self.old) }
        ensures kept { OnErr result (sink_bytes self.new ≡ sink_bytes self.old) }
        ensures kept_room { OnErr result (sink_room self.new ≡ sink_room self.old) }
        ensures most { sink_most self.new ≡ sink_most self.old }
        ensures calls { sink_calls self.new ≡ after_call (sink_calls self.old) result }
        ensures unmarked { IfOk result (λ _. sink_failures self.new ≡ sink_failures self.old) }
        ensures noted { OnErr result (sink_failures self.new ≡ sink_failures self.old ++ length (sink_bytes self.old) ∷ []) }
        ensures cause { HasCause (sink_calls self.old).faults (sink_calls self.new).faults result }
    {
        let count = piece.len().min(self.most_at_once).min(self.room);
        if self.faults.next_fails() || count == 0 {
            self.failures = self.failures.with(&self.bytes.len());
            return Err(self.faults.add());
        }
        if self.bytes.extend_from_slice(&piece[..count]).is_err() {
            unreachable!()
        }
        self.room -= count;
        Ok(count)
    }

    fn faults(&self) -> u64 {
        self.faults.count()
    }
}
