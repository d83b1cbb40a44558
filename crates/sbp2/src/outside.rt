ghost use Rattle.std.specs.Prelude.{◌≡◌, ◌+◌, ◌^◌, ◌≤◌, ℕ, List, Option, None};

use sbp_base::{Failed, Sink, SinkFault, Source};
use std::io::{Read, Write};

/// A source over a reader. It tells what is left where the reader does, and counts each error.
#[derive(Drop)]
pub struct Input<R> {
    reader: R,
    errors: u64,
}

impl<R: Read + Drop> Input<R> {
    /// A source over the reader, with no error yet.
    pub fn new(reader: R) -> Self
        ensures { result ≡ record { reader = reader; errors = 0 } }
    {
        Input { reader, errors: 0 }
    }
}

impl<R: Read + Drop> Source for Input<R> {
    ghost left = { λ input. R.remaining input.reader };

    ghost faults = { λ input. input.errors };

    fn read(&mut self, into: &mut [u8]) -> Result<usize, Failed> {
        let errors = self.errors;
        match self.reader.read(into) {
            Ok(count) => Ok(count),
            Err(_) => {
                self.errors = errors.saturating_add(1);
                Err(Failed)
            }
        }
    }
}

/// A sink over a writer. It tells what was written where the writer does, and counts each error.
#[derive(Drop)]
pub struct Output<W> {
    writer: W,
    errors: u64,
}

impl<W: Write + Drop> Output<W> {
    /// A sink over the writer, with no error yet.
    pub fn new(writer: W) -> Self
        ensures { result ≡ record { writer = writer; errors = 0 } }
    {
        Output { writer, errors: 0 }
    }
}

impl<W: Write + Drop> Sink for Output<W> {
    ghost written = { λ output. W.contents output.writer };

    ghost faults = { λ output. output.errors };

    fn write(&mut self, bytes: &[u8]) -> Result<usize, SinkFault> {
        let errors = self.errors;
        match self.writer.write(bytes) {
            Ok(taken) if taken != 0 || bytes.is_empty() => Ok(taken),
            _ => {
                self.errors = errors.saturating_add(1);
                Err(SinkFault::Failed)
            }
        }
    }
}
