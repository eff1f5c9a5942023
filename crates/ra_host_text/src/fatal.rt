ghost use Rattle.std.specs.Prelude.{◌≡◌};
ghost use Rattle.ra_host_text.specs.LineText.{fatal_status, fatal_word};

/// Why a host ends.
#[derive(Clone, Copy)]
pub enum Fatal {
    /// It was started wrongly, or its first line is not its nonce.
    Usage,
    /// The book is not one of this host, or has a bad line, or another host has it open.
    Book,
    /// The book is old: other hosts have more of it.
    Old,
    /// No clock is left.
    ClockFull,
    /// Reading failed.
    Read,
    /// Writing failed.
    Write,
    /// The disk failed.
    Disk,
    /// Memory ran out.
    Memory,
}

impl Fatal {
    /// Returns its word, which is its name. It does not allocate.
    pub fn word(self) -> &'static str
        ensures { result.now ≡ fatal_word self }
    {
        match self {
            Fatal::Usage => "Usage",
            Fatal::Book => "Book",
            Fatal::Old => "Old",
            Fatal::ClockFull => "ClockFull",
            Fatal::Read => "Read",
            Fatal::Write => "Write",
            Fatal::Disk => "Disk",
            Fatal::Memory => "Memory",
        }
    }

    /// Returns the exit status with which the host ends, 1 or 2. It does not allocate.
    pub fn status(self) -> u8
        ensures { result ≡ fatal_status self }
    {
        match self {
            Fatal::Usage | Fatal::Book | Fatal::Old | Fatal::ClockFull => 2,
            Fatal::Read | Fatal::Write | Fatal::Disk | Fatal::Memory => 1,
        }
    }
}
