//! Traces of any length, whose verdict comes as soon as a line is wrong.
ghost use Rattle.std.specs.Prelude.{◌≡◌, ◌+◌, ◌-◌, ◌≤◌, ℕ, List, Option, IfSome, length};
ghost use Rattle.ra_world.specs.Quiet.{requests_in};
ghost use Rattle.ra_world.specs.Run.{marks_of};
ghost use Rattle.ra_world.specs.Traffic.{sent_by};
ghost use Rattle.ra_trace.specs.Along.{IsAlong};
ghost use Rattle.ra_trace.specs.Check.{ChecksTrace};
ghost use Rattle.ra_trace.specs.Complete as complete;
ghost use Rattle.ra_trace.specs.CompleteAlong.{AtEnd};
ghost use Rattle.ra_trace.specs.Due.{TellsDue};
ghost use Rattle.ra_trace.specs.Following.{IsTraceSoFar, TellsTrace, trace_so_far_lines};
ghost use Rattle.ra_trace.specs.FollowingAlong.{IsTold};
ghost use Rattle.ra_trace.specs.Reading.{Answers};
ghost use Rattle.ra_trace.specs.declared.checker.trace_watcher.TraceSoFar as counts;

use crate::checker::check_text::{NOT_OPENED, ending, passes_at_end, take_first, take_next};
use crate::checker::{Checker, Judgement};
use crate::line::Line;
use crate::line_source::{FromBuffer, LineRoom};
use crate::text_limits::MAX_FOLLOWED;
use crate::{TraceError, TraceSoFar, TraceWatcher, Verdict};
use std::alloc::Global;
use std::io::BufRead;

/// Returns what this many lines come to, which the checker has taken.
#[inline(always)]
fn so_far(checker: &Checker, lines: u64) -> TraceSoFar
    ensures { result ≡ record {
      lines = lines;
      requests = requests_in (marks_of checker.now.world.moves);
      messages = length (sent_by checker.now.world.moves);
    } }
{
    TraceSoFar {
        lines,
        requests: checker.world.requests(),
        messages: checker.world.sent(),
    }
}

/// Shows the watcher a line that is right, and its number.
#[inline(always)]
fn show_line<W: TraceWatcher>(watcher: &mut W, number: u64, read: &Option<Line>)
    ensures { W.told watcher.new ≡ W.told watcher.old }
{
    if let Some(line) = read {
        watcher.took(number, line);
    }
}

/// Tells the watcher what the lines come to so far, if it is to be told after this many, and then says after how many
/// lines it is to be told next.
#[inline(always)]
fn tell_if_due<W: TraceWatcher>(watcher: &mut W, due: &mut u128, every: u64, so_far: TraceSoFar)
    ensures { (old : Option (List ℕ)) (before : Option (List counts.TraceSoFar))
        → IsTold trace_so_far_lines IsTraceSoFar every old before (W.told watcher.old) so_far.lines due.old
        → IfSome old (λ input. IsTraceSoFar input so_far) → 1 ≤ so_far.lines
        → IsTold trace_so_far_lines IsTraceSoFar every old before (W.told watcher.new) (so_far.lines + 1) due.new }
{
    if u128::from(so_far.lines) == *due {
        watcher.tell(so_far);
        *due += u128::from(every);
    }
}

/// Returns the verdict of a text whose first line has this many bytes, from the checker after that line, and tells the
/// watcher. If a line is wrong for its sends or its marks, `due` becomes the line that was due there. If the text is
/// valid, the checker has then taken all of it.
///
/// # Errors
///
/// `Read`, `Limit`, `Memory`.
fn follow_after<B: BufRead, W: TraceWatcher>(
    alloc: Global,
    reader: &mut B,
    first: usize,
    checker: &mut Checker,
    every: u64,
    watcher: &mut W,
    due: &mut Option<Line>,
) -> Result<Verdict, TraceError>
    requires { first ≤ 9223372036854775808 }
    ensures answers { (old : Option (List ℕ))
        → IsAlong 9223372036854775808 (9223372036854775808 - first) old (B.remaining reader.old) checker.old 2
        → Answers 9223372036854775808 old (B.remaining reader.new) result }
    ensures due { (old : Option (List ℕ))
        → IsAlong 9223372036854775808 (9223372036854775808 - first) old (B.remaining reader.old) checker.old 2
        → TellsDue old result due.new }
    ensures tells { (old : Option (List ℕ))
        → IsAlong 9223372036854775808 (9223372036854775808 - first) old (B.remaining reader.old) checker.old 2
        → TellsTrace every old result (W.told watcher.old) (W.told watcher.new) }
    ensures end { (old : Option (List ℕ))
        → IsAlong 9223372036854775808 (9223372036854775808 - first) old (B.remaining reader.old) checker.old 2
        → AtEnd old (B.remaining reader.new) checker.new result }
{
    let mut left = MAX_FOLLOWED as usize - first;
    let mut number = 2;
    let mut taken = 0;
    let mut room = LineRoom::new();
    let mut told_next = u128::from(every);
    tell_if_due(watcher, &mut told_next, every, so_far(checker, 1));
    loop {
        let next = match take_next::<B, FromBuffer>(
            alloc, reader, &mut room, &mut taken, checker, left,
        ) {
            Ok(next) => next,
            Err(fault) => return Err(fault),
        };
        if let Judgement::Wrong(cause) = next {
            watcher.refused(number, &room.line);
            *due = checker.next_due();
            return Ok(Verdict::Invalid {
                line: number,
                cause,
            });
        }
        show_line(watcher, number, &room.line);
        tell_if_due(watcher, &mut told_next, every, so_far(checker, number));
        number += 1;
        left -= taken;
        if let Judgement::Last = next {
            return ending(reader, checker, left, number);
        }
    }
}

/// Checks the text of a trace as [`check_buffered_with_due`](crate::check_buffered_with_due) does, however long it is,
/// such as one that is still being written. The verdict comes as soon as a wrong line is over, and nothing is read
/// after it.
///
/// The watcher is shown each line but the first, and whether it is right. After each `every` lines it is told how many lines there
/// were so far, and how many requests and messages their steps made; if `every` is 0, it is not. Both come before more
/// is read.
///
/// It keeps the present line, a world without its history, and the lock table. They grow with the names, with the
/// messages under way, and with the clients that wait, are queued or hold. The cost is that of `check_buffered`, plus
/// what the watcher takes.
///
/// # Errors
///
/// If no verdict was reached before:
///
/// 1. `Read`: the reader failed.
/// 2. `Limit`: the text has more than 2^63 bytes.
/// 3. `Memory`: memory ran out.
pub fn follow_trace<B: BufRead, W: TraceWatcher>(
    alloc: Global,
    reader: &mut B,
    every: u64,
    watcher: &mut W,
    due: &mut Option<Line>,
) -> Result<Verdict, TraceError>
    ensures checks { ChecksTrace 9223372036854775808 (B.remaining reader.old) (B.remaining reader.new) result }
    ensures due { TellsDue (B.remaining reader.old) result due.new }
    ensures tells { TellsTrace every (B.remaining reader.old) result (W.told watcher.old) (W.told watcher.new) }
{
    follow_trace_with_end(alloc, reader, every, watcher, false, due, &mut false)
}

/// Checks the text of a trace as [`follow_trace`] does, and tells in `passes` whether it passes: it is valid and, if
/// that is demanded, complete, as [`check_buffered_with_end`](crate::check_buffered_with_end) says. If there is no
/// verdict, nothing is promised of `passes`. The cost is that of `follow_trace`, and if it is demanded also linear in
/// the numbers of names and nodes.
///
/// # Errors
///
/// Those of `follow_trace`.
pub fn follow_trace_with_end<B: BufRead, W: TraceWatcher>(
    alloc: Global,
    reader: &mut B,
    every: u64,
    watcher: &mut W,
    demanded: bool,
    due: &mut Option<Line>,
    passes: &mut bool,
) -> Result<Verdict, TraceError>
    ensures checks { ChecksTrace 9223372036854775808 (B.remaining reader.old) (B.remaining reader.new) result }
    ensures due { TellsDue (B.remaining reader.old) result due.new }
    ensures tells { TellsTrace every (B.remaining reader.old) result (W.told watcher.old) (W.told watcher.new) }
    ensures end { complete.TellsTrace demanded (B.remaining reader.old) (B.remaining reader.new) result passes.new }
{
    let mut taken = 0;
    *passes = false;
    match take_first::<B, FromBuffer>(alloc, reader, &mut taken, MAX_FOLLOWED as usize) {
        Ok(Some(mut checker)) => {
            let result = follow_after(alloc, reader, taken, &mut checker, every, watcher, due);
            *passes = passes_at_end(demanded, &checker, &result);
            result
        }
        Ok(None) => Ok(NOT_OPENED),
        Err(fault) => Err(fault),
    }
}
