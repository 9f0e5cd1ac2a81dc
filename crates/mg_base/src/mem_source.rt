//! A source in memory, whose calls fail where a test says so.

ghost use Rattle.std.specs.Prelude.{◌≤◌, length};

use crate::{Source, SourceFault};

/// The bytes of a list, of which the calls with the listed numbers fail. Calls are counted from 1.
#[derive(Drop)]
pub struct MemSource {
    bytes: Vec<u8>,
    at: usize,
    bad: Vec<u32>,
    calls: u32,
    faults: u64,
    ghost within: { at ≤ length bytes.items },
}

impl MemSource {
    ghost use Rattle.std.specs.Prelude.{◌≡◌, Some};
    ghost use Rattle.mg_base.specs.MemStreams.{source_meaning, source_bad, source_calls};

    /// A source of these bytes, of which the calls with these numbers fail.
    pub fn new(bytes: Vec<u8>, bad: Vec<u32>) -> MemSource
        ensures left { source_meaning.left result ≡ Some bytes.items }
        ensures faults { source_meaning.faults result ≡ 0 }
        ensures bad { source_bad result ≡ bad.items }
        ensures calls { source_calls result ≡ 0 }
    {
        MemSource {
            bytes,
            at: 0,
            bad,
            calls: 0,
            faults: 0,
        }
    }
}

impl Source for MemSource {
    ghost use Rattle.std.specs.Prelude.{◌≡◌, ◌↔◌, ◌-◌, min, length, IsErr, IfOk};
    ghost use Rattle.mg_base.specs.Calls.{IsListed, next_call};
    ghost use Rattle.mg_base.specs.Streams.{Takes};
    ghost use Rattle.mg_base.specs.MemStreams.{source_meaning, source_bad, source_calls, bytes_left};

    ghost meaning = { source_meaning };

    /// It fills the buffer as far as its bytes reach, and fails exactly where the call is listed.
    fn take(&mut self, into: &mut [u8]) -> Result<usize, SourceFault>
        ensures takes { Takes source_meaning self.old self.new into.old into.new result }
        ensures count { IfOk result (λ n. n ≡ min (length into.old) (length (bytes_left self.old))) }
        ensures fails { IsErr result ↔ IsListed (source_bad self.old) (source_calls self.old) }
        ensures calls { source_calls self.new ≡ next_call (source_calls self.old) }
    {
        self.calls = self.calls.saturating_add(1);
        if self.bad.contains(&self.calls) {
            self.faults = self.faults.saturating_add(1);
            return Err(SourceFault::Failed);
        }
        let count = into.len().min(self.bytes.len() - self.at);
        into[..count].copy_from_slice(&self.bytes[self.at..self.at + count]);
        self.at += count;
        Ok(count)
    }
}
