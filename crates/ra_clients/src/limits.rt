//! The limits of a host.
ghost use Rattle.std.specs.Prelude.{◌≡◌, ◌↔◌, ◌*◌, ◌<◌, IsTrue};

/// The limits of a host.
#[derive(Clone, Copy, Debug, PartialEq, Eq)]
pub struct Limits {
    /// How many clients may have names at once.
    pub clients: u32,
    /// How many names a client may hold or wait for.
    pub names: usize,
    /// How many bytes a client's line may have, without its line feed.
    pub line: usize,
    /// Up to how many idle names its node keeps.
    pub idle: u64,
}

impl Limits {
    /// The limits of a host that is told no others.
    pub const USUAL: Limits = Limits {
        clients: 1 << 20,
        names: 64,
        line: 512,
        idle: 1000,
    };

    /// Returns whether a node is to forget names: of those that it keeps, more are idle than the limit says, and more
    /// than half. Names that it has to keep for good are not counted. It does not allocate.
    pub fn is_to_forget(&self, kept: u64, idle: u64) -> bool
        ensures { IsTrue result ↔ ((self.now.idle < idle) × (kept < 2 * idle)) }
    {
        self.idle < idle && kept.saturating_sub(idle) < idle
    }
}
