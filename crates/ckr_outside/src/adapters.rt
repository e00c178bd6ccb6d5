//! The trusted edge: a reader and a writer of the library as a source and a sink.
ghost use Rattle.std.specs.Prelude.{◌≡◌};

use crate::failure::{Failed, count_on};
use crate::{Sink, Source};
use std::io::{ErrorKind, Read, Write};

/// A reader as a source. It tells of its bytes what the reader tells.
#[derive(Drop)]
pub struct StdSource<R: Read> {
    inner: R,
    failures: u64,
}

impl<R: Read> StdSource<R> {
    ghost use Rattle.ckr_outside.specs.Adapters.{reader_of, reader_faults};

    /// The reader, which has not failed yet. It takes no memory.
    pub fn new(inner: R) -> Self
        ensures reader { reader_of result ≡ inner }
        ensures faults { reader_faults result ≡ 0 }
    {
        StdSource { inner, failures: 0 }
    }
}

impl<R: Read> Source for StdSource<R> {
    ghost left = { λ s. R.remaining s.inner };

    ghost faults = { λ s. s.failures };

    /// Each error of the reader is a fault, but that a read that was interrupted is made again.
    fn take(&mut self, buf: &mut [u8]) -> Result<usize, Failed> {
        for _ in 0..u64::MAX {
            match self.inner.read(buf) {
                Ok(taken) => return Ok(taken),
                Err(error) if error.kind() == ErrorKind::Interrupted => {}
                Err(_) => break,
            }
        }
        count_on(&mut self.failures);
        Err(Failed)
    }
}

/// A writer as a sink. It tells of its bytes what the writer tells.
#[derive(Drop)]
pub struct StdSink<W: Write> {
    inner: W,
    failures: u64,
}

impl<W: Write> StdSink<W> {
    ghost use Rattle.ckr_outside.specs.Adapters.{writer_of, writer_faults};

    /// The writer, which has not failed yet. It takes no memory.
    pub fn new(inner: W) -> Self
        ensures writer { writer_of result ≡ inner }
        ensures faults { writer_faults result ≡ 0 }
    {
        StdSink { inner, failures: 0 }
    }
}

impl<W: Write> Sink for StdSink<W> {
    ghost written = { λ s. W.contents s.inner };

    ghost faults = { λ s. s.failures };

    /// Each error of the writer is a fault, but that a write that was interrupted is made again. So is a write that takes
    /// none of a piece that isn't empty.
    fn put(&mut self, bytes: &[u8]) -> Result<usize, Failed> {
        for _ in 0..u64::MAX {
            match self.inner.write(bytes) {
                Ok(taken) if taken > 0 || bytes.is_empty() => return Ok(taken),
                Err(error) if error.kind() == ErrorKind::Interrupted => {}
                _ => break,
            }
        }
        count_on(&mut self.failures);
        Err(Failed)
    }
}
