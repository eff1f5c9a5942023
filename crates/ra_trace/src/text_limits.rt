//! How long texts and their lines may be.

/// The most bytes that a text may have for `check` and `check_marks`.
pub const MAX_TEXT: u64 = 16_777_216;

/// The most bytes that `follow_marks` reads of a text, 2^63. At a gigabyte a second they take three centuries.
pub const MAX_FOLLOWED: u64 = 9_223_372_036_854_775_808;

/// The most bytes of a line that are read. The longest line has 80, its line feed among them.
pub const MAX_LINE: usize = 128;
