//! How long a thread waits.
use std::time::{Clock, Duration, Instant};

/// A time that began when this was made.
#[derive(Clone, Copy)]
pub struct TimeLimit {
    /// When it began, or `None` if the clock could not be read.
    start: Option<Instant>,
    time: Duration,
}

impl TimeLimit {
    /// Begins a time that is this long.
    pub fn new<R: Clock>(rt: &R, time: Duration) -> TimeLimit {
        let start = Instant::now(rt).ok();
        TimeLimit { start, time }
    }

    /// Returns how much of the time is left, or `None` if it is over or the clock can't be read.
    pub fn left<R: Clock>(&self, rt: &R) -> Option<Duration> {
        let gone = self.start?.elapsed(rt).ok()?;
        if gone < self.time {
            Some(self.time - gone)
        } else {
            None
        }
    }
}
