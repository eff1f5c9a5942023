ghost use Rattle.std.specs.Prelude.{◌≡◌};
ghost use Rattle.ra_text.specs.DrawnPart as spec;

/// The lines of a text that are to be drawn, counted from 1, both ends among them. `from` may be 0, which is as 1, and
/// `to` after the last line, which is as that one.
#[derive(Clone, Copy)]
pub struct Part {
    /// The first one.
    pub from: u64,
    /// The last one.
    pub to: u64,
}

impl Part {
    /// All lines.
    pub const WHOLE: Part = Part {
        from: 1,
        to: u64::MAX,
    };

    /// Returns how many lines of a text of this many are to be drawn.
    pub fn lines_of(self, lines: u64) -> u64
        ensures { result ≡ spec.lines_between self.from self.to lines }
    {
        self.to
            .min(lines)
            .saturating_sub(self.from.saturating_sub(1))
    }
}
