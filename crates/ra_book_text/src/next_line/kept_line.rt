//! What is kept of a line.
ghost use Rattle.std.specs.Prelude.{◌≡◌, ◌++◌, ℕ, List, [], false};
ghost use Rattle.ra_book_text.specs.Input.{IsKeptLine};

use crate::next_line::event_line::MAX_LINE;
use arrayvec::ArrayVec;

/// The bytes of a line. No more than 256 are kept.
#[derive(Drop)]
pub struct KeptLine {
    pub bytes: ArrayVec<u8, MAX_LINE>,
    /// Whether it has more than 256 bytes. The kept ones are not asked then.
    pub is_long: bool,
}

impl KeptLine {
    /// Makes one without bytes.
    pub fn new() -> KeptLine
        ensures { IsKeptLine [] result.bytes.items result.is_long }
    {
        KeptLine {
            bytes: ArrayVec::new(),
            is_long: false,
        }
    }

    /// Drops what is kept.
    pub fn clear(&mut self)
        ensures { IsKeptLine [] self.new.bytes.items self.new.is_long }
    {
        self.bytes.clear();
        self.is_long = false;
    }

    /// Adds bytes.
    pub fn push(&mut self, more: &[u8])
        ensures { (text : List ℕ) → IsKeptLine text self.old.bytes.items self.old.is_long
            → IsKeptLine (text ++ more.now) self.new.bytes.items self.new.is_long }
    {
        if !self.is_long && self.bytes.try_extend_from_slice(more).is_err() {
            self.is_long = true;
        }
    }
}
