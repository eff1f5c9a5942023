//! Who learns how the check of a trace goes on.
ghost use Rattle.std.specs.Prelude.{◌≡◌, [], ◌∷◌, List, Option, None};
ghost use Rattle.ra_trace.specs.declared.checker.trace_watcher.TraceSoFar as counts;
ghost use Rattle.ra_trace.specs.Following.{Tells};

use crate::line::Line;

/// What the first lines of a trace come to, all of which are right.
#[derive(Clone, Copy, Debug, PartialEq, Eq)]
pub struct TraceSoFar {
    /// How many lines they are.
    pub lines: u64,
    /// How many requests their steps made.
    pub requests: u128,
    /// How many messages their steps sent, copies not counted.
    pub messages: u128,
}

/// Learns how the check of a trace goes on, which may be long, or not at its end for days.
pub trait TraceWatcher {
    // What the watcher was told, in order, if its contract tells.
    ghost told: { Self → Option (List counts.TraceSoFar) } = { λ _. None };

    /// Is called after each line that is right but the first, with its number.
    fn took(&mut self, number: u64, line: &Line)
        ensures { told self.new ≡ told self.old };

    /// Is called after a wrong line but the first, with its number. The line is given if it has the form of one that a
    /// trace may have.
    fn refused(&mut self, number: u64, read: &Option<Line>)
        ensures { told self.new ≡ told self.old };

    /// Is called now and then, with what the lines so far come to.
    fn tell(&mut self, so_far: TraceSoFar)
        ensures { Tells (told self.old) (told self.new) (so_far ∷ []) };
}

/// The watcher that ignores everything.
impl TraceWatcher for () {
    #[inline(always)]
    fn took(&mut self, _number: u64, _line: &Line) {}

    fn refused(&mut self, _number: u64, _read: &Option<Line>) {}

    fn tell(&mut self, _so_far: TraceSoFar) {}
}
