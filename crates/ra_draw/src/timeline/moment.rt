//! When something happens in a run.

/// A moment of a run: the line of its step in the trace, and the row of that line on the page, or 0 before the part
/// that is drawn.
#[derive(Clone, Copy)]
pub struct Moment {
    pub line: u64,
    pub row: u32,
}
