ghost use Rattle.std.specs.Prelude.{◌≡◌, OnOk, OnErr};
ghost use Rattle.std.specs.Io.Buffered.{writer_contents};

use crate::Status;
use crate::retry::write_retried;
use std::alloc::Global;
use std::cell::RefCell;
use std::io::{self, BufWriter, ErrorKind, Read, Write};

/// A writer with a buffer in front of it. Bytes are kept until the buffer is full or is flushed. Once a write to the
/// inner writer has failed, each later write and flush fails.
#[derive(Drop)]
struct KeptWriter<W: Write + Drop> {
    writer: BufWriter<W>,
    failed: bool,
}

impl<W: Write + Drop> Write for KeptWriter<W> {
    ghost contents = { λ kept. writer_contents W.contents kept.writer };

    fn write(&mut self, bytes: &[u8]) -> io::Result<usize> {
        if !self.failed {
            if let Ok(count) = write_retried(&mut self.writer, bytes) {
                return Ok(count);
            }
        }
        self.failed = true;
        Err(io::Error::from(ErrorKind::BrokenPipe))
    }

    fn flush(&mut self) -> io::Result<()> {
        if !self.failed {
            if let Ok(()) = self.writer.flush() {
                return Ok(());
            }
        }
        self.failed = true;
        Err(io::Error::from(ErrorKind::BrokenPipe))
    }
}

/// A buffered writer with several users. Bytes are kept until the buffer is full or a user flushes. Once a write to the
/// inner writer has failed, each later write and flush fails.
#[derive(Drop)]
pub struct SharedWriter<W: Write + Drop> {
    kept: RefCell<KeptWriter<W>>,
}

impl<W: Write + Drop> SharedWriter<W> {
    /// Puts a buffer of `capacity` bytes in front of the writer.
    ///
    /// # Errors
    ///
    /// An error of the kind `OutOfMemory` if memory runs out.
    pub fn new(alloc: Global, capacity: usize, inner: W) -> io::Result<SharedWriter<W>> {
        let writer = BufWriter::with_capacity(alloc, capacity, inner)?;
        Ok(SharedWriter {
            kept: RefCell::new(KeptWriter {
                writer,
                failed: false,
            }),
        })
    }
}

impl<W: Write + Drop> Write for &SharedWriter<W> {
    fn write(&mut self, bytes: &[u8]) -> io::Result<usize> {
        match self.kept.try_borrow_mut() {
            Ok(mut kept) => kept.write(bytes),
            Err(_) => Err(io::Error::from(ErrorKind::BrokenPipe)),
        }
    }

    fn flush(&mut self) -> io::Result<()> {
        match self.kept.try_borrow_mut() {
            Ok(mut kept) => kept.flush(),
            Err(_) => Err(io::Error::from(ErrorKind::BrokenPipe)),
        }
    }
}

/// A reader or writer that flushes a shared writer before each of its own calls. A read goes on even if that flush
/// fails: the next write to the shared writer, or its last flush, reports the failure.
#[derive(Drop)]
pub struct FlushFirst<'a, T, W: Write + Drop> {
    inner: T,
    output: &'a SharedWriter<W>,
}

impl<'a, T, W: Write + Drop> FlushFirst<'a, T, W> {
    /// Wraps a reader or writer, so that the shared writer is flushed before each call of it.
    pub fn new(inner: T, output: &'a SharedWriter<W>) -> FlushFirst<'a, T, W>
        ensures { result.inner ≡ inner }
    {
        FlushFirst { inner, output }
    }
}

impl<T: Read, W: Write + Drop> Read for FlushFirst<'_, T, W> {
    ghost remaining = { λ reader. T.remaining reader.inner };

    fn read(&mut self, buf: &mut [u8]) -> io::Result<usize> {
        let _ = self.output.flush();
        self.inner.read(buf)
    }
}

impl<T: Write, W: Write + Drop> Write for FlushFirst<'_, T, W> {
    ghost contents = { λ writer. T.contents writer.inner };

    fn write(&mut self, bytes: &[u8]) -> io::Result<usize> {
        self.output.flush()?;
        self.inner.write(bytes)
    }

    fn flush(&mut self) -> io::Result<()> {
        self.output.flush()?;
        self.inner.flush()
    }
}

/// How a run ended, given the result of the last flush of its output.
pub fn settled(status: Status, flushed: io::Result<()>) -> Status
    ensures ok { OnOk flushed (result ≡ status) }
    ensures err { OnErr flushed (result ≡ Status.WriteFault) }
{
    match flushed {
        Ok(()) => status,
        Err(_) => Status::WriteFault,
    }
}
