//! An input of the program by its name.
use std::fs::File;
use std::io;
use std::io::{Input, Read, StdinLock};

/// What is open of an input.
#[derive(Drop)]
enum Opened {
    /// Nothing yet.
    Unopened,
    File(File),
    Standard(StdinLock<'static>),
    /// It was read to its end, and is closed.
    Ended,
}

/// A file or, by the name `-`, standard input. It is opened when it is first read, and closed at its end, so that there
/// may be more of them than files that can be open.
#[derive(Drop)]
pub struct NamedInput<'a> {
    rt: &'a HostRuntime,
    name: &'a str,
    opened: Opened,
}

impl<'a> NamedInput<'a> {
    /// Makes the input of a name. It does not allocate, and neither do reads that follow.
    pub fn new(rt: &'a HostRuntime, name: &'a str) -> NamedInput<'a> {
        NamedInput {
            rt,
            name,
            opened: Opened::Unopened,
        }
    }

    /// Opens it.
    ///
    /// # Errors
    ///
    /// The system's error, if it cannot be opened.
    fn open(&mut self) -> io::Result<()> {
        self.opened = if self.name == "-" {
            Opened::Standard(self.rt.reader())
        } else {
            Opened::File(File::open(self.rt, self.name)?)
        };
        Ok(())
    }
}

impl Read for NamedInput<'_> {
    fn read(&mut self, buf: &mut [u8]) -> io::Result<usize> {
        if let Opened::Unopened = self.opened {
            self.open()?;
        }
        let count = match &mut self.opened {
            Opened::File(file) => file.read(buf)?,
            Opened::Standard(input) => input.read(buf)?,
            Opened::Unopened | Opened::Ended => 0,
        };
        if count == 0 && !buf.is_empty() {
            self.opened = Opened::Ended;
        }
        Ok(count)
    }
}
