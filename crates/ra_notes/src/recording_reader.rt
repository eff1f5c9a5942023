//! A reader that remembers what was read from it, so that a note can say where something is wrong.
ghost use Rattle.std.specs.Prelude.{◌≡◌};

use crate::given_options::is_given;
use ra_files::{InputPlaces, ReadsInputs};
use ra_script::MAX_SCRIPT;
use ra_trace::{MAX_LINE, MAX_TEXT};
use std::alloc::Global;
use std::io;
use std::io::{BufRead, Read};

/// What was read.
#[derive(Drop)]
pub struct RecordedInput {
    /// The first bytes that were read, and what the reader showed after them.
    bytes: Vec<u8>,
    /// The most bytes that are remembered.
    most: usize,
    /// How many bytes were read.
    taken: usize,
    /// Whether they are to be remembered, and there was memory for them.
    is_whole: bool,
}

impl RecordedInput {
    /// The most bytes that are remembered of what is checked: as many as a text may have, and a line as far as it is
    /// read.
    pub const MAX_TEXT: usize = MAX_TEXT as usize + MAX_LINE;

    /// The most bytes that are remembered of another input: as many as are read of a script.
    pub const MAX_BYTES: usize = MAX_SCRIPT + 1;

    /// Returns the first bytes that were read, and what the reader showed after them. There are at most 16,777,344 by
    /// the command `check`, so a text that it checks is whole, and 65,537 by another one. Returns `None` if memory ran
    /// out, or if nothing is to be remembered.
    pub fn bytes(&self) -> Option<&[u8]> {
        if self.is_whole {
            Some(self.bytes.as_slice())
        } else {
            None
        }
    }

    /// Returns how many bytes are known that were shown and not read yet.
    #[inline(always)]
    fn ahead(&self) -> usize {
        self.bytes.len().saturating_sub(self.taken)
    }

    /// Remembers what is read next, as far as it was not shown before and there is room.
    fn show(&mut self, next: &[u8]) {
        let known = self.ahead();
        if known < next.len() {
            let room = self.most.saturating_sub(self.bytes.len());
            let end = known.saturating_add(room).min(next.len());
            // If there was no memory for some bytes, what comes after them would be at a wrong place.
            self.is_whole = self.is_whole
                && self.bytes.extend_from_slice(&next[known..end]).is_ok();
        }
    }

    /// Remembers that `count` bytes of what was shown are read.
    #[inline(always)]
    fn take(&mut self, count: usize) {
        // A reader may show more than before, though nothing was read. Then some of these bytes are not known.
        let is_known = count <= self.ahead() || self.bytes.len() >= self.most;
        self.is_whole = self.is_whole && is_known;
        self.taken = self.taken.saturating_add(count);
    }
}

/// A reader that remembers what was read of it. What it gives is what the reader in it gives.
#[derive(Drop)]
pub struct RecordingReader<R> {
    inner: R,
    recorded: RecordedInput,
}

impl<R> RecordingReader<R> {
    /// Makes one of a reader, for a command with these arguments. The first is the program's name. It does not
    /// allocate, and reads that follow do so for what they remember, unless memory runs out. Of a text that is followed, or
    /// from which wrong lines are left out, nothing is remembered.
    pub fn new(alloc: Global, arguments: &[String], inner: R) -> RecordingReader<R>
        ensures { result.inner ≡ inner }
    {
        let most = match arguments.get(1) {
            Some(command) if command.as_str() != "check" => RecordedInput::MAX_BYTES,
            Some(_) if is_given(arguments, "follow") => 0,
            Some(_) if is_given(arguments, "all") && is_given(arguments, "marks") => 0,
            Some(_) => RecordedInput::MAX_TEXT,
            None => RecordedInput::MAX_BYTES,
        };
        RecordingReader {
            inner,
            recorded: RecordedInput {
                bytes: Vec::new(alloc),
                most,
                taken: 0,
                is_whole: most > 0,
            },
        }
    }

    /// Makes one of a reader that remembers nothing. It does not allocate, and neither do reads that follow.
    pub fn forgetful(alloc: Global, inner: R) -> RecordingReader<R>
        ensures { result.inner ≡ inner }
    {
        RecordingReader {
            inner,
            recorded: RecordedInput {
                bytes: Vec::new(alloc),
                most: 0,
                taken: 0,
                is_whole: false,
            },
        }
    }

    /// Returns what was read.
    pub fn recorded(&self) -> &RecordedInput {
        &self.recorded
    }
}

impl<R: Read> Read for RecordingReader<R> {
    ghost remaining = { λ reader. R.remaining reader.inner };

    fn read(&mut self, buf: &mut [u8]) -> io::Result<usize> {
        let read = self.inner.read(buf);
        if let Ok(count) = &read {
            self.recorded.show(&buf[..*count]);
            self.recorded.take(*count);
        }
        read
    }
}

impl<R: BufRead> BufRead for RecordingReader<R> {
    ghost consumable_len = { λ reader. R.consumable_len reader.inner };

    #[inline(always)]
    fn fill_buf(&mut self) -> io::Result<&[u8]> {
        // Until all that was shown is read, a reader with a buffer shows the same, as for most lines.
        if self.recorded.ahead() == 0 {
            let shown = self.inner.fill_buf()?;
            self.recorded.show(shown);
            if shown.is_empty() {
                return Ok(b"");
            }
        }
        // It shows the same once more, so that it is clear that the result is lent by the reader in it.
        self.inner.fill_buf()
    }

    fn consume(&mut self, amount: usize) {
        self.recorded.take(amount);
        self.inner.consume(amount);
    }
}

impl<R: ReadsInputs> ReadsInputs for RecordingReader<R> {
    fn places(&self) -> &InputPlaces {
        self.inner.places()
    }
}
