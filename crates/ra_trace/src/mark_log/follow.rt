//! Mark logs of any length, whose verdict comes as soon as a line is wrong.
ghost use Rattle.std.specs.Prelude.{◌≡◌, ◌+◌, ◌≤◌, ℕ, List, Option, IfSome};
ghost use Rattle.ra_table.specs.Table.{empty_table};
ghost use Rattle.ra_trace.specs.Check.{ChecksLog};
ghost use Rattle.ra_trace.specs.Complete.{TellsLog};
ghost use Rattle.ra_trace.specs.CompleteAlong.{LogAtEnd};
ghost use Rattle.ra_trace.specs.Following.{IsMarksSoFar, TellsMarks, marks_lines};
ghost use Rattle.ra_trace.specs.FollowingAlong.{IsTold};
ghost use Rattle.ra_trace.specs.declared.mark_log.marks_watcher.MarksSoFar as counts;

use crate::line::Line;
use crate::line_source::{FromBuffer, LineRoom};
use crate::mark_log::{MarkJudgement, MarkLog, passes_at_end, take_next};
use crate::text_limits::MAX_FOLLOWED;
use crate::{MarksSoFar, MarksVerdict, MarksWatcher, TraceError};
use ra_table::Table;
use std::alloc::Global;
use std::io::BufRead;

/// Shows the watcher the mark of a line that is right, and its number.
#[inline(always)]
fn show_mark<W: MarksWatcher>(watcher: &mut W, line: u64, read: &Option<Line>)
    ensures { W.told watcher.new ≡ W.told watcher.old }
{
    if let Some(Line::Marked(mark)) = read {
        watcher.took(line, mark);
    }
}

/// Tells the watcher what the lines come to so far, if it is to be told after this many, and then says after how many
/// lines it is to be told next.
#[inline(always)]
fn tell_if_due<W: MarksWatcher>(watcher: &mut W, due: &mut u128, every: u64, so_far: MarksSoFar)
    ensures { (old : Option (List ℕ)) (before : Option (List counts.MarksSoFar))
        → IsTold marks_lines IsMarksSoFar every old before (W.told watcher.old) so_far.lines due.old
        → IfSome old (λ input. IsMarksSoFar input so_far) → 1 ≤ so_far.lines
        → IsTold marks_lines IsMarksSoFar every old before (W.told watcher.new) (so_far.lines + 1) due.new }
{
    if u128::from(so_far.lines) == *due {
        watcher.tell(so_far);
        *due += u128::from(every);
    }
}

/// Checks a log as `follow_marks` does, with a log that has taken no line yet. If the text is valid, the log has then
/// taken all of it.
///
/// # Errors
///
/// Those of `follow_marks`.
fn follow_in<B: BufRead, W: MarksWatcher>(
    log: &mut MarkLog,
    reader: &mut B,
    every: u64,
    watcher: &mut W,
) -> Result<MarksVerdict, TraceError>
    requires { log.old ≡ record { table = empty_table; requests = 0; grants = 0 } }
    ensures checks { ChecksLog 9223372036854775808 (B.remaining reader.old) (B.remaining reader.new) result }
    ensures tells { TellsMarks every (B.remaining reader.old) result (W.told watcher.old) (W.told watcher.new) }
    ensures end { LogAtEnd (B.remaining reader.old) (B.remaining reader.new) log.new result }
{
    let mut taken = 0;
    let mut room = LineRoom::new();
    let mut left = MAX_FOLLOWED as usize;
    let mut line = 1;
    let mut due = u128::from(every);
    loop {
        let next = match take_next::<B, FromBuffer>(reader, &mut room, &mut taken, log, left) {
            Ok(next) => next,
            Err(fault) => return Err(fault),
        };
        if let MarkJudgement::Wrong(cause) = next {
            watcher.refused(line, &room.line, cause);
            return Ok(MarksVerdict::Invalid { line, cause });
        }
        if let MarkJudgement::End = next {
            return Ok(MarksVerdict::Valid {
                requests: log.requests,
                grants: log.grants,
            });
        }
        show_mark(watcher, line, &room.line);
        tell_if_due(watcher, &mut due, every, log.so_far(line));
        line += 1;
        left -= taken;
    }
}

/// Checks a log of marks as [`check_marks_buffered`](crate::check_marks_buffered) does, however long it is, such as one
/// that a service is still writing. The verdict comes as soon as a wrong line is over, and nothing is read after it.
///
/// The watcher is shown the mark of each line that is right, and the wrong line. After each `every` lines it is told how many lines,
/// requests and grants there were so far; if `every` is 0, it is not. Both come before more is read.
///
/// It keeps the present line and the lock table, which grows with the names and with the entries that wait and hold.
/// The cost is that of `check_marks_buffered`, plus what the watcher takes.
///
/// # Errors
///
/// If no verdict was reached before:
///
/// 1. `Read`: the reader failed.
/// 2. `Limit`: the text has more than 2^63 bytes.
/// 3. `Memory`: memory ran out.
pub fn follow_marks<B: BufRead, W: MarksWatcher>(
    alloc: Global,
    reader: &mut B,
    every: u64,
    watcher: &mut W,
) -> Result<MarksVerdict, TraceError>
    ensures checks { ChecksLog 9223372036854775808 (B.remaining reader.old) (B.remaining reader.new) result }
    ensures tells { TellsMarks every (B.remaining reader.old) result (W.told watcher.old) (W.told watcher.new) }
{
    follow_marks_with_end(alloc, reader, every, watcher, false, &mut false)
}

/// Checks a log of marks as [`follow_marks`] does, and tells in `passes` whether it passes: it is valid and, if that is
/// demanded, complete, as [`check_marks_buffered_with_end`](crate::check_marks_buffered_with_end) says. If there is no
/// verdict, nothing is promised of `passes`. The cost is that of `follow_marks`, and if it is demanded also linear in
/// the number of names.
///
/// # Errors
///
/// Those of `follow_marks`.
pub fn follow_marks_with_end<B: BufRead, W: MarksWatcher>(
    alloc: Global,
    reader: &mut B,
    every: u64,
    watcher: &mut W,
    demanded: bool,
    passes: &mut bool,
) -> Result<MarksVerdict, TraceError>
    ensures checks { ChecksLog 9223372036854775808 (B.remaining reader.old) (B.remaining reader.new) result }
    ensures tells { TellsMarks every (B.remaining reader.old) result (W.told watcher.old) (W.told watcher.new) }
    ensures end { TellsLog demanded (B.remaining reader.old) (B.remaining reader.new) result passes.new }
{
    let Ok(table) = Table::new(alloc) else {
        return Err(TraceError::Memory);
    };
    let mut log = MarkLog::new(table);
    let checked = follow_in(&mut log, reader, every, watcher);
    *passes = passes_at_end(demanded, &log, &checked);
    checked
}
