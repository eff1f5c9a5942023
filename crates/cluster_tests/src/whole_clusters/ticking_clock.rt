//! A clock that goes on only when it is read.
use std::io;
use std::sync::Wait;
use std::sync::atomic::{AtomicU64, Ordering};
use std::time::{Clock, Duration};

/// A clock that goes on by a microsecond whenever it is read. So a time of that many microseconds ends at a look, and
/// no other thread is waited for.
#[derive(Drop)]
pub struct TickingClock<'a, R> {
    rt: &'a R,
    readings: AtomicU64,
}

impl<'a, R> TickingClock<'a, R> {
    /// Makes a clock that was not read yet.
    pub fn new(rt: &'a R) -> TickingClock<'a, R> {
        TickingClock {
            rt,
            readings: AtomicU64::new(0),
        }
    }
}

impl<R: Wait> Wait for TickingClock<'_, R> {}

impl<R: Wait> Clock for TickingClock<'_, R> {
    fn monotonic(&self) -> io::Result<Duration> {
        let readings = self.readings.fetch_add(1, Ordering::SeqCst);
        Ok(Duration::from_micros(readings))
    }

    fn since_1970(&self) -> io::Result<Duration> {
        self.monotonic()
    }
}
