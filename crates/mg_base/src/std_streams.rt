//! The standard input and output of the process. They tell nothing of their bytes.

use crate::{Sink, SinkFault, Source, SourceFault};
use std::io::{ErrorKind, Read};

/// The standard input.
#[derive(Drop)]
pub struct StdSource<R> {
    rt: R,
    faults: u64,
}

impl<R> StdSource<R> {
    /// The standard input. Nothing is read yet.
    pub fn new(rt: R) -> StdSource<R> {
        StdSource { rt, faults: 0 }
    }
}

impl<R: Input> Source for StdSource<R> {
    ghost use Rattle.mg_base.specs.StdStreams.{std_source_meaning};

    ghost meaning = { std_source_meaning };

    fn take(&mut self, into: &mut [u8]) -> Result<usize, SourceFault> {
        let mut reader = self.rt.reader();
        for _ in 0..u64::MAX {
            match reader.read(into) {
                Ok(count) => return Ok(count),
                Err(error) if error.kind() == ErrorKind::Interrupted => {}
                Err(_) => break,
            }
        }
        self.faults = self.faults.saturating_add(1);
        Err(SourceFault::Failed)
    }
}

/// The standard output. It holds nothing back: a piece that answered Ok was taken by the system.
#[derive(Drop)]
pub struct StdSink<R> {
    rt: R,
    faults: u64,
}

impl<R> StdSink<R> {
    /// The standard output. Nothing is written yet.
    pub fn new(rt: R) -> StdSink<R> {
        StdSink { rt, faults: 0 }
    }
}

impl<R: Print> Sink for StdSink<R> {
    ghost use Rattle.mg_base.specs.StdStreams.{std_sink_meaning};

    ghost meaning = { std_sink_meaning };

    fn put(&mut self, piece: &[u8]) -> Result<(), SinkFault> {
        if self.rt.write_all(piece).is_err() {
            self.faults = self.faults.saturating_add(1);
            return Err(SinkFault::Failed);
        }
        Ok(())
    }
}
