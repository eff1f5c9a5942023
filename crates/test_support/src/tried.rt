//! How calls end if a growth may be refused.
//!
//! A test of growth makes each call, and makes it again if it answered that memory ran out. Whatever else a call
//! answers or changes, the test asserts on the spot, and so prints which call it was, what was expected and what came.
//! If the test met no refusal, as under `rt test`, it passes. If it met one and found all as it should be, it fails
//! with words of its own. These words tell `tools/refuse-growth`, which has each allocation refused in turn, that it is
//! not a real failure.
use ra_stamp::Memory;

/// How calls ended.
#[derive(Clone, Copy, Debug, PartialEq)]
pub enum Tried {
    /// They were taken.
    NoFailure,
    /// One answered that memory ran out and left all as it was, and was taken when it was made again.
    RetrySucceeded,
    /// One answered that memory ran out, and again when it was made again, though at most one growth is refused.
    RefusedTwice,
}

impl Tried {
    /// Returns the words with which a test of these calls fails, or `None` if it passes.
    pub fn fault(self) -> Option<&'static str> {
        match self {
            Tried::NoFailure => None,
            Tried::RetrySucceeded => Some("a growth was refused, and the call made again"),
            Tried::RefusedTwice => {
                Some("expected that memory runs out at most once, and it ran out twice")
            }
        }
    }
}

/// Returns how these calls and those ended together.
pub fn both(first: Tried, second: Tried) -> Tried {
    match (first, second) {
        (Tried::NoFailure, Tried::NoFailure) => Tried::NoFailure,
        (Tried::RefusedTwice, _) | (_, Tried::RefusedTwice) => Tried::RefusedTwice,
        _ => Tried::RetrySucceeded,
    }
}

/// Returns how calls ended that were made twice. Each time they may find no memory, if the first of them is refused.
pub fn again(first: Result<Tried, Memory>, second: Result<Tried, Memory>) -> Tried {
    match (first, second) {
        (Ok(tried), _) => tried,
        (Err(Memory), Ok(tried)) => both(Tried::RetrySucceeded, tried),
        (Err(Memory), Err(Memory)) => Tried::RefusedTwice,
    }
}
