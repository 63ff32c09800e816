// A stream of the system.
ghost use Rattle.std.specs.Prelude.{◌≡◌};

use crate::{Failed, Sink};
use std::io::Write;

/// A writer of std, such as the standard output. It reports what the writer reports, which is nothing for a real stream.
#[derive(Drop)]
pub struct StreamSink<W: Write> {
    writer: W,
    faults: u64,
}

impl<W: Write> StreamSink<W> {
    /// Creates a sink that writes to this writer, without a fault yet. What the writer has taken before counts as taken.
    pub fn new(writer: W) -> StreamSink<W>
        ensures taken { ⟦<StreamSink<W> as Sink>⟧.taken result ≡ W.contents writer }
        ensures faults { ⟦<StreamSink<W> as Sink>⟧.faults result ≡ 0 }
    {
        StreamSink { writer, faults: 0 }
    }
}

impl<W: Write> Sink for StreamSink<W> {
    ghost taken = { λ s. W.contents s.writer };

    ghost faults = { λ s. s.faults };

    /// Each error of the writer is a fault, and so is a write that takes nothing from a piece that isn't empty.
    fn write(&mut self, bytes: &[u8]) -> Result<usize, Failed> {
        if bytes.is_empty() {
            return Ok(0);
        }
        match self.writer.write(bytes) {
            Ok(count) if count > 0 => Ok(count),
            _ => {
                self.faults = self.faults.saturating_add(1);
                Err(Failed)
            }
        }
    }
}
