//! A sink in memory, whose calls fail where a test says so.

ghost use Rattle.std.specs.Prelude.{◌≤◌, vec_len, vec_capacity};

use crate::{Memory, Sink, SinkFault};
use std::alloc::Global;

/// Room for bytes, of which the calls with the listed numbers fail. Calls are counted from 1. A piece
/// that goes past the room fails too; nothing of it is taken then.
#[derive(Drop)]
pub struct MemSink {
    bytes: Vec<u8>,
    room: usize,
    bad: Vec<u32>,
    calls: u32,
    faults: u64,
    ghost reserved: { room ≤ vec_capacity bytes },
    ghost within: { vec_len bytes ≤ room },
}

impl MemSink {
    ghost use Rattle.std.specs.Prelude.{◌≡◌, Some, [], IfOk};
    ghost use Rattle.mg_base.specs.MemStreams.{sink_meaning, sink_room, sink_bad, sink_calls};

    /// An empty sink with room for so many bytes, of which the calls with these numbers fail.
    ///
    /// # Errors
    ///
    /// `Memory` only.
    pub fn new(alloc: Global, room: u32, bad: Vec<u32>) -> Result<MemSink, Memory>
        ensures taken { IfOk result (λ k. sink_meaning.taken k ≡ Some []) }
        ensures faults { IfOk result (λ k. sink_meaning.faults k ≡ 0) }
        ensures room { IfOk result (λ k. sink_room k ≡ room) }
        ensures bad { IfOk result (λ k. sink_bad k ≡ bad.items) }
        ensures calls { IfOk result (λ k. sink_calls k ≡ 0) }
    {
        let bytes = Vec::with_capacity(alloc, room as usize)?;
        Ok(MemSink {
            bytes,
            room: room as usize,
            bad,
            calls: 0,
            faults: 0,
        })
    }

    /// What was written.
    pub fn bytes(&self) -> &[u8]
        ensures { sink_meaning.taken self.now ≡ Some result.now }
    {
        &self.bytes
    }
}

impl Sink for MemSink {
    ghost use Rattle.std.specs.Prelude.{◌≡◌, ◌↔◌, ◌⊎◌, ◌<◌, ◌+◌, length, IsErr, OnErr};
    ghost use Rattle.mg_base.specs.Calls.{IsListed, next_call};
    ghost use Rattle.mg_base.specs.Streams.{Puts};
    ghost use Rattle.mg_base.specs.MemStreams.{sink_meaning, sink_bad, sink_calls, sink_room, bytes_taken};

    ghost meaning = { sink_meaning };

    /// It fails exactly where the call is listed or the piece goes past the room.
    fn put(&mut self, piece: &[u8]) -> Result<(), SinkFault>
        ensures puts { Puts sink_meaning self.old self.new piece.now result }
        ensures fails { IsErr result ↔ (IsListed (sink_bad self.old) (sink_calls self.old)
            ⊎ (sink_room self.old < length (bytes_taken self.old) + length piece.now)) }
        ensures nothing { OnErr result (bytes_taken self.new ≡ bytes_taken self.old) }
        ensures calls { sink_calls self.new ≡ next_call (sink_calls self.old) }
    {
        self.calls = self.calls.saturating_add(1);
        if piece.len() > self.room - self.bytes.len() || self.bad.contains(&self.calls) {
            self.faults = self.faults.saturating_add(1);
            return Err(SinkFault::Failed);
        }
        self.bytes.extend_from_slice(piece).unwrap();
        Ok(())
    }
}
