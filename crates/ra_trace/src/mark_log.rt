//! Mark logs: whether what any lock service wrote down is a run of the lock table.
pub mod follow;
pub mod left_out;
pub mod marks_verdict;
pub mod marks_watcher;
pub mod whole_lines;
pub mod wrong_lines;

ghost use Rattle.std.specs.Prelude.{◌≡◌, ◌↔◌, ◌<◌, ◌≤◌, ◌+◌, ◌∷◌, [], ℕ, List, Option, IfOk, IfErr, IfSome, IsErrOf};
ghost use Rattle.std.specs.Io.KnownBytes.{Consumes};
ghost use Rattle.ra_stamp.specs.declared.entry.Mark.{Mark};
ghost use Rattle.ra_world.specs.Quiet.{requests_in};
ghost use Rattle.ra_trace.specs.declared.mark_log.marks_verdict.MarksVerdict.{MarksVerdict};
ghost use Rattle.ra_table.specs.Table.{empty_table};
ghost use Rattle.ra_trace.specs.Check.{ChecksLog};
ghost use Rattle.ra_trace.specs.Complete.{TellsLog};
ghost use Rattle.ra_trace.specs.CompleteAlong.{LogAtEnd, MeetsLogBy};
ghost use Rattle.ra_trace.specs.LeftOutAlong.{TriedMark};
ghost use Rattle.ra_trace.specs.Marks.{grants_in};
ghost use Rattle.ra_trace.specs.MarksAlong.{IsAlongMarks, JudgedLine, JudgedMark, SomeMarkTaken, TurnsMarks};

use crate::line::Line;
use crate::line_source::{ByBytes, FromBuffer, LineRoom, LineSource};
use crate::marked_table::try_mark;
use crate::text_limits::MAX_TEXT;
use crate::{MarkCause, MarksSoFar, MarksVerdict, TraceError};
use ra_stamp::Mark;
use ra_table::Table;
use std::alloc::Global;
use std::io::{BufRead, Read};

/// What is known after the marks that came: the lock table after them, and how many of them were requests and grants.
#[derive(Drop)]
struct MarkLog {
    table: Table,
    requests: u64,
    grants: u64,
}

/// What the log says of the next line.
#[derive(Clone, Copy)]
enum MarkJudgement {
    /// A mark that the lock table allows.
    Right,
    /// No line is left: the input is at its end.
    End,
    /// It is wrong.
    Wrong(MarkCause),
}

impl MarkLog {
    /// Makes the log that has taken no line, over the table in which nothing waits or holds.
    fn new(table: Table) -> MarkLog
        ensures { result ≡ record { table = table; requests = 0; grants = 0 } }
    {
        MarkLog {
            table,
            requests: 0,
            grants: 0,
        }
    }

    /// Returns what its lines, so many, come to.
    #[inline(always)]
    fn so_far(&self, lines: u64) -> MarksSoFar
        ensures { result ≡ record { lines = lines; requests = self.now.requests; grants = self.now.grants } }
    {
        MarksSoFar {
            lines,
            requests: self.requests,
            grants: self.grants,
        }
    }

    /// Takes the next mark, or returns why the lock table refuses it, and stays as it is. Without memory, nothing is
    /// promised of the log.
    ///
    /// # Errors
    ///
    /// `Memory`: memory ran out.
    #[inline(always)]
    fn take_mark(&mut self, mark: &Mark) -> Result<Option<MarkCause>, TraceError>
        requires requests { self.old.requests < 9223372036854775809 }
        requires grants { self.old.grants < 9223372036854775809 }
        ensures { TriedMark self.old mark.now self.new result }
    {
        let refused = match try_mark(&mut self.table, mark) {
            Ok(refused) => refused,
            Err(fault) => return Err(fault),
        };
        if refused.is_some() {
            return Ok(refused);
        }
        match mark {
            Mark::Requested(_) => self.requests += 1,
            Mark::Entered(_) => self.grants += 1,
            Mark::Left(_) | Mark::Withdrawn(_) => {}
        }
        Ok(None)
    }

    /// Takes the next line, and says what it is. After a wrong mark, or without memory, nothing is promised of the log.
    ///
    /// # Errors
    ///
    /// `Memory`: memory ran out.
    fn take_line(&mut self, line: &Line) -> Result<MarkJudgement, TraceError>
        requires requests { self.old.requests < 9223372036854775809 }
        requires grants { self.old.grants < 9223372036854775809 }
        ensures { JudgedLine self.old line.now self.new result }
    {
        let Line::Marked(mark) = line else {
            return Ok(MarkJudgement::Wrong(MarkCause::Line));
        };
        match self.take_mark(mark) {
            Ok(None) => Ok(MarkJudgement::Right),
            Ok(Some(cause)) => Ok(MarkJudgement::Wrong(cause)),
            Err(fault) => Err(fault),
        }
    }
}

/// Reads the next line into the log, and says what it is. `taken` becomes the number of its bytes. The text may still
/// have `left` bytes.
///
/// # Errors
///
/// `Read`, `Limit`, `Memory`.
fn take_next<R: Read, S: LineSource<R>>(
    reader: &mut R,
    room: &mut LineRoom,
    taken: &mut usize,
    log: &mut MarkLog,
    left: usize,
) -> Result<MarkJudgement, TraceError>
    requires requests { log.old.requests < 9223372036854775809 }
    requires grants { log.old.grants < 9223372036854775809 }
    ensures turned { (limit number : ℕ) (old : Option (List ℕ))
        → IsAlongMarks limit left old (R.remaining reader.old) log.old number
        → TurnsMarks limit left old (R.remaining reader.new) log.new number taken.new result }
    ensures some { IfOk result (λ next. SomeMarkTaken left taken.new next) }
{
    match S::next_line(reader, room, taken, left) {
        Ok(()) => {}
        Err(fault) => return Err(fault),
    }
    match &room.line {
        Some(line) => log.take_line(line),
        None if *taken == 0 => Ok(MarkJudgement::End),
        None => Ok(MarkJudgement::Wrong(MarkCause::Line)),
    }
}

/// Returns whether a log with this result passes, by what is known after all of it if it is valid: it is, and it is
/// complete if that is demanded.
fn passes_at_end(demanded: bool, log: &MarkLog, checked: &Result<MarksVerdict, TraceError>) -> bool
    ensures { MeetsLogBy demanded log.now checked.now result }
{
    match checked {
        Ok(MarksVerdict::Valid { .. }) => { !demanded || (log.requests > 0 && log.table.is_idle()) }
        _ => false,
    }
}

/// Checks a log as `check_marks_within` does, in a log that has taken no line yet, and takes the bytes from the reader
/// in the way of `S`. If the text is valid, the log has then taken all of it.
///
/// # Errors
///
/// Those of `check_marks_within`.
fn check_in<R: Read, S: LineSource<R>>(
    log: &mut MarkLog,
    reader: &mut R,
    limit: u64,
) -> Result<MarksVerdict, TraceError>
    requires most { limit ≤ 16777216 }
    requires empty { log.old ≡ record { table = empty_table; requests = 0; grants = 0 } }
    ensures checks { ChecksLog limit (R.remaining reader.old) (R.remaining reader.new) result }
    ensures end { LogAtEnd (R.remaining reader.old) (R.remaining reader.new) log.new result }
{
    let mut taken = 0;
    let mut room = LineRoom::new();
    let mut left = limit as usize;
    let mut line = 1;
    loop {
        let next = match take_next::<R, S>(reader, &mut room, &mut taken, log, left) {
            Ok(next) => next,
            Err(fault) => return Err(fault),
        };
        if let MarkJudgement::Wrong(cause) = next {
            return Ok(MarksVerdict::Invalid { line, cause });
        }
        if let MarkJudgement::End = next {
            return Ok(MarksVerdict::Valid {
                requests: log.requests,
                grants: log.grants,
            });
        }
        line += 1;
        left -= taken;
    }
}

/// Checks a log as `check_marks_within` does, takes the bytes from the reader in the way of `S`, and tells in `passes`
/// whether the log is valid and, if that is demanded, complete.
///
/// # Errors
///
/// Those of `check_marks_within`.
fn check_by<R: Read, S: LineSource<R>>(
    alloc: Global,
    reader: &mut R,
    limit: u64,
    demanded: bool,
    passes: &mut bool,
) -> Result<MarksVerdict, TraceError>
    requires { limit ≤ 16777216 }
    ensures checks { ChecksLog limit (R.remaining reader.old) (R.remaining reader.new) result }
    ensures end { TellsLog demanded (R.remaining reader.old) (R.remaining reader.new) result passes.new }
{
    let Ok(table) = Table::new(alloc) else {
        return Err(TraceError::Memory);
    };
    let mut log = MarkLog::new(table);
    let checked = check_in::<R, S>(&mut log, reader, limit);
    *passes = passes_at_end(demanded, &log, &checked);
    checked
}

/// Checks a log of marks: lines such as `request 1 7 r X 3`, `enter 1 7 r X 3` and `leave 1 7 r X 3`, each with node,
/// client, name, mode and number as in traces of version 2. Returns that the marks are a run of the lock table, with
/// the counts of requests and grants, or which line is the first wrong one, and why. The empty text is valid.
///
/// It goes line by line, and makes each mark in a lock table. The verdict comes at the first wrong line. Nothing is
/// read after its line feed or its 128th byte, since each line is shorter. It keeps the present line and the lock
/// table, which grows with the names and with the entries that wait and hold. It reads at most `limit + 1` bytes, each
/// by a read of its own, so a reader with a buffer is best; a byte past the limit is not looked at. No read that failed
/// is tried again. The cost is linear in what is read, plus that of the marks, as `Table` says. To read a line takes no
/// memory.
///
/// # Errors
///
/// If no verdict was reached before:
///
/// 1. `Read`: the reader failed.
/// 2. `Limit`: the text has more than `limit` bytes.
/// 3. `Memory`: memory ran out.
pub fn check_marks_within<R: Read>(
    alloc: Global,
    reader: &mut R,
    limit: u64,
) -> Result<MarksVerdict, TraceError>
    requires { limit ≤ 16777216 }
    ensures { ChecksLog limit (R.remaining reader.old) (R.remaining reader.new) result }
{
    check_by::<R, ByBytes>(alloc, reader, limit, false, &mut false)
}

/// Checks a log of marks of at most 16,777,216 bytes, as `check_marks_within` does.
///
/// # Errors
///
/// Those of `check_marks_within`.
pub fn check_marks<R: Read>(alloc: Global, reader: &mut R) -> Result<MarksVerdict, TraceError>
    ensures { ChecksLog 16777216 (R.remaining reader.old) (R.remaining reader.new) result }
{
    check_marks_within(alloc, reader, MAX_TEXT)
}

/// Checks a log of marks as `check_marks` does, and takes from the buffer of the reader exactly what `check_marks`
/// reads. It looks through the buffer up to a line feed, and takes no byte after it. It is the faster of the two. At
/// the end of the text, after the reader showed nothing, it is asked once more by a read of one byte.
///
/// # Errors
///
/// Those of `check_marks_within`.
pub fn check_marks_buffered<B: BufRead>(
    alloc: Global,
    reader: &mut B,
) -> Result<MarksVerdict, TraceError>
    ensures { ChecksLog 16777216 (B.remaining reader.old) (B.remaining reader.new) result }
{
    check_by::<B, FromBuffer>(alloc, reader, MAX_TEXT, false, &mut false)
}

/// Checks a log of marks as [`check_marks_buffered`] does, and tells in `passes` whether it passes: it is valid and, if
/// that is demanded, complete. A log is complete if something was requested in it and, at its end, no request waits or
/// holds. If there is no verdict, nothing is promised of `passes`. The cost is that of `check_marks_buffered`, and if
/// it is demanded also linear in the number of names.
///
/// # Errors
///
/// Those of `check_marks_within`.
pub fn check_marks_buffered_with_end<B: BufRead>(
    alloc: Global,
    reader: &mut B,
    demanded: bool,
    passes: &mut bool,
) -> Result<MarksVerdict, TraceError>
    ensures checks { ChecksLog 16777216 (B.remaining reader.old) (B.remaining reader.new) result }
    ensures end { TellsLog demanded (B.remaining reader.old) (B.remaining reader.new) result passes.new }
{
    check_by::<B, FromBuffer>(alloc, reader, MAX_TEXT, demanded, passes)
}
