//! The input that a program reads, and the output that it writes.

ghost use Rattle.mg_base.specs.Streams.{SourceMeaning, SinkMeaning, Takes, Puts};

/// The fault of a source.
#[derive(Clone, Copy, Debug, PartialEq, Eq)]
pub enum SourceFault {
    /// The source failed: no cause is told.
    Failed,
}

/// The fault of a sink.
#[derive(Clone, Copy, Debug, PartialEq, Eq)]
pub enum SinkFault {
    /// The sink failed: no cause is told.
    Failed,
}

/// Bytes to be read, once, from the first to the last.
///
/// # Errors
///
/// `Failed` only where the source's count of faults rose in the call; then nothing was read.
pub trait Source {
    ghost meaning: { SourceMeaning Self };

    /// Reads some of the bytes that are left into the front of `into`, and answers how many. Of a
    /// buffer that is not empty, 0 means the end.
    fn take(&mut self, into: &mut [u8]) -> Result<usize, SourceFault>
        ensures { Takes meaning self.old self.new into.old into.new result };
}

/// A place for bytes to be written.
///
/// # Errors
///
/// `Failed` only where the sink's count of faults rose in the call; a prefix of the piece was
/// written then.
pub trait Sink {
    ghost meaning: { SinkMeaning Self };

    /// Writes a piece whole.
    fn put(&mut self, piece: &[u8]) -> Result<(), SinkFault>
        ensures { Puts meaning self.old self.new piece.now result };
}
