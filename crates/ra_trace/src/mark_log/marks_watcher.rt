//! Who learns how the check of a mark log goes on.
ghost use Rattle.std.specs.Prelude.{◌≡◌, [], ◌∷◌, List, Option, None};
ghost use Rattle.ra_trace.specs.declared.mark_log.marks_watcher.MarksSoFar as counts;
ghost use Rattle.ra_trace.specs.Following.{Tells};

use crate::MarkCause;
use crate::line::Line;
use ra_stamp::Mark;

/// What the first lines of a mark log come to, of which the wrong ones, if any, were left out.
#[derive(Clone, Copy, Debug, PartialEq, Eq)]
pub struct MarksSoFar {
    /// How many lines they are.
    pub lines: u64,
    /// How many requests were made.
    pub requests: u64,
    /// How many of them were granted.
    pub grants: u64,
}

/// Learns how the check of a mark log goes on, which may be long, or not at its end for days.
pub trait MarksWatcher {
    // What the watcher was told, in order, if its contract tells.
    ghost told: { Self → Option (List counts.MarksSoFar) } = { λ _. None };

    /// Is called after each line that is right, with its number and its mark.
    fn took(&mut self, line: u64, mark: &Mark)
        ensures { told self.new ≡ told self.old };

    /// Is called after a wrong line, with its number and why it is wrong: after the first one, or, if each is told,
    /// after the first on each name and the first that has none. The line is given if it has the form of one that a
    /// trace may have.
    fn refused(&mut self, line: u64, read: &Option<Line>, cause: MarkCause)
        ensures { told self.new ≡ told self.old };

    /// Is called now and then, with what the lines so far come to.
    fn tell(&mut self, so_far: MarksSoFar)
        ensures { Tells (told self.old) (told self.new) (so_far ∷ []) };
}

/// The watcher that ignores everything.
impl MarksWatcher for () {
    #[inline(always)]
    fn took(&mut self, _line: u64, _mark: &Mark) {}

    fn refused(&mut self, _line: u64, _read: &Option<Line>, _cause: MarkCause) {}

    fn tell(&mut self, _so_far: MarksSoFar) {}
}
