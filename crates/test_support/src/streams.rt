//! Readers and writers that fail.
use std::io;
use std::io::{BufRead, Read, Write};

/// Gives at most `size` bytes at a time. After `before_fault` reads it fails once, and then goes on. What it shows as a
/// buffer is what it would give, and counts as a read.
#[derive(Clone, Copy)]
pub struct FailingReader<'a> {
    /// What is left to be read.
    pub bytes: &'a [u8],
    /// How many bytes a read gives at most.
    pub size: usize,
    /// How many reads are left before the fault, if there is to be one.
    pub before_fault: Option<usize>,
    pub fault: io::ErrorKind,
}

impl<'a> FailingReader<'a> {
    /// Returns a reader of these bytes that fails with this fault after this many reads, or never.
    pub fn new(
        bytes: &'a [u8],
        size: usize,
        before_fault: Option<usize>,
        fault: io::ErrorKind,
    ) -> FailingReader<'a> {
        FailingReader {
            bytes,
            size,
            before_fault,
            fault,
        }
    }

    /// Counts a read.
    ///
    /// # Errors
    ///
    /// The fault, if it is its turn.
    fn count_read(&mut self) -> io::Result<()> {
        match self.before_fault {
            Some(0) => {
                self.before_fault = None;
                return Err(self.fault.into());
            }
            Some(reads) => self.before_fault = Some(reads - 1),
            None => {}
        }
        Ok(())
    }
}

impl Read for FailingReader<'_> {
    fn read(&mut self, buf: &mut [u8]) -> io::Result<usize> {
        self.count_read()?;
        let count = self.size.min(self.bytes.len()).min(buf.len());
        buf[..count].copy_from_slice(&self.bytes[..count]);
        self.bytes = &self.bytes[count..];
        Ok(count)
    }
}

impl BufRead for FailingReader<'_> {
    fn fill_buf(&mut self) -> io::Result<&[u8]> {
        self.count_read()?;
        Ok(&self.bytes[..self.size.min(self.bytes.len())])
    }

    fn consume(&mut self, amount: usize) {
        self.bytes = &self.bytes[amount.min(self.bytes.len())..];
    }
}

/// Takes one byte at a time, and looks whether it is the one that comes next in a text. After `before_fault` writes it
/// fails once, or takes nothing once if there is no fault, and then goes on.
#[derive(Clone, Copy)]
pub struct FailingWriter<'a> {
    /// What is left of the text.
    pub left: &'a [u8],
    /// The first byte that came and was not the next one.
    pub other: Option<u8>,
    /// How many writes are left before the fault, if there is to be one.
    pub before_fault: Option<usize>,
    pub fault: Option<io::ErrorKind>,
}

impl Write for FailingWriter<'_> {
    fn write(&mut self, buf: &[u8]) -> io::Result<usize> {
        match self.before_fault {
            Some(0) => {
                self.before_fault = None;
                return match self.fault {
                    Some(kind) => Err(kind.into()),
                    None => Ok(0),
                };
            }
            Some(writes) => self.before_fault = Some(writes - 1),
            None => {}
        }
        if buf.is_empty() {
            return Ok(0);
        }
        match self.left {
            [next, rest @ ..] if *next == buf[0] => self.left = rest,
            _ if self.other.is_none() => self.other = Some(buf[0]),
            _ => {}
        }
        Ok(1)
    }

    fn flush(&mut self) -> io::Result<()> {
        Ok(())
    }
}

/// Returns a writer that looks for this text, and fails after this many writes.
pub fn failing_writer(
    text: &[u8],
    before_fault: usize,
    fault: Option<io::ErrorKind>,
) -> FailingWriter<'_> {
    FailingWriter {
        left: text,
        other: None,
        before_fault: Some(before_fault),
        fault,
    }
}
