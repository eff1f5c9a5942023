//! A writer that records how it failed, so that it can be said.
ghost use Rattle.std.specs.Prelude.{◌≡◌};

use std::io;
use std::io::{ErrorKind, Write};

/// How a writer failed.
#[derive(Clone, Copy)]
pub enum OutputFault {
    /// It is no longer read, for example a pipe whose other end is closed.
    Unread,
    /// No space is left at its destination.
    Full,
    /// Another one, or it took nothing of some bytes.
    Other,
}

/// A writer that records how it failed last. What it takes is what the writer in it takes.
#[derive(Drop)]
pub struct RecordingWriter<W> {
    inner: W,
    fault: Option<OutputFault>,
}

impl<W> RecordingWriter<W> {
    /// Makes one of a writer. Neither it nor what is written later allocates.
    pub fn new(inner: W) -> RecordingWriter<W>
        ensures { result.inner ≡ inner }
    {
        RecordingWriter { inner, fault: None }
    }

    /// Returns how the writer failed last, or `None` if it did not.
    pub fn fault(&self) -> Option<OutputFault> {
        self.fault
    }

    /// Records how the writer failed, if it did.
    fn record<T>(&mut self, written: &io::Result<T>)
        ensures { self.new.inner ≡ self.old.inner }
    {
        if let Err(error) = written {
            self.fault = Some(match error.kind() {
                ErrorKind::BrokenPipe => OutputFault::Unread,
                ErrorKind::StorageFull => OutputFault::Full,
                _ => OutputFault::Other,
            });
        }
    }
}

impl<W: Write> Write for RecordingWriter<W> {
    ghost contents = { λ writer. W.contents writer.inner };

    fn write(&mut self, buf: &[u8]) -> io::Result<usize> {
        let written = self.inner.write(buf);
        self.record(&written);
        if let Ok(0) = &written
            && !buf.is_empty()
        {
            self.fault = Some(OutputFault::Other);
        }
        written
    }

    fn flush(&mut self) -> io::Result<()> {
        let flushed = self.inner.flush();
        self.record(&flushed);
        flushed
    }

    fn write_all(&mut self, buf: &[u8]) -> io::Result<()> {
        let written = self.inner.write_all(buf);
        self.record(&written);
        written
    }
}
