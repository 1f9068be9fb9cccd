ghost use Rattle.sbe_base.specs.Adapters.{WrapsBuffer, WrapsReader, WrapsWriter};
ghost use Rattle.std.specs.Io.Buffered.{reader_buffer, reader_remaining};

use crate::retry::{read_retried, write_retried};
use crate::{Failed, Sink, Source};
use std::io::{BufRead, BufReader, Read, Write};

/// Wraps a std reader and counts its failures. Its contents are those of the reader. A read that the system interrupted
/// is retried, and doesn't count as a failure.
#[derive(Drop)]
pub struct StdSource<R: Read + Drop> {
    inner: R,
    faults: u64,
}

impl<R: Read + Drop> StdSource<R> {
    /// Wraps a reader.
    pub fn new(inner: R) -> StdSource<R>
        ensures { WrapsReader inner result }
    {
        StdSource { inner, faults: 0 }
    }
}

impl<R: Read + Drop> Source for StdSource<R> {
    ghost state = { λ source. record { told = R.remaining source.inner; faults = source.faults } };

    fn read(&mut self, buf: &mut [u8]) -> Result<usize, Failed> {
        match read_retried(&mut self.inner, buf) {
            Ok(count) => Ok(count),
            Err(_) => {
                self.faults = self.faults.saturating_add(1);
                Err(Failed)
            }
        }
    }
}

/// Wraps a buffered std reader, counts its failures and lends what is in its buffer. Otherwise it is like
/// [`StdSource`].
#[derive(Drop)]
pub struct BufferedSource<R: Read + Drop> {
    source: StdSource<BufReader<R>>,
}

impl<R: Read + Drop> BufferedSource<R> {
    /// Wraps a buffered reader.
    pub fn new(inner: BufReader<R>) -> BufferedSource<R>
        ensures { WrapsBuffer inner result }
    {
        BufferedSource {
            source: StdSource::new(inner),
        }
    }
}

impl<R: Read + Drop> Source for BufferedSource<R> {
    ghost state = { λ buffered. record { told = reader_remaining R.remaining buffered.source.inner; faults = buffered.source.faults } };

    ghost read_ahead = { λ buffered. reader_buffer buffered.source.inner };

    fn read(&mut self, buf: &mut [u8]) -> Result<usize, Failed> {
        self.source.read(buf)
    }

    fn ahead(&self) -> &[u8] {
        self.source.inner.buffer()
    }

    fn pass(&mut self, n: usize) -> bool {
        if self.source.inner.buffer().len() < n {
            return false;
        }
        self.source.inner.consume(n);
        true
    }
}

/// Wraps a std writer and counts its failures. Its contents are those of the writer. A writer that accepts no byte of a
/// piece that isn't empty has failed. A write that the system interrupted is retried, and doesn't count as a failure.
#[derive(Drop)]
pub struct StdSink<W: Write + Drop> {
    inner: W,
    faults: u64,
}

impl<W: Write + Drop> StdSink<W> {
    /// Wraps a writer.
    pub fn new(inner: W) -> StdSink<W>
        ensures { WrapsWriter inner result }
    {
        StdSink { inner, faults: 0 }
    }
}

impl<W: Write + Drop> Sink for StdSink<W> {
    ghost state = { λ sink. record { told = W.contents sink.inner; faults = sink.faults } };

    fn write(&mut self, bytes: &[u8]) -> Result<usize, Failed> {
        match write_retried(&mut self.inner, bytes) {
            Ok(count) if count > 0 || bytes.is_empty() => Ok(count),
            _ => {
                self.faults = self.faults.saturating_add(1);
                Err(Failed)
            }
        }
    }
}
