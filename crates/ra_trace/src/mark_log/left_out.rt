//! Mark logs of which each wrong line is told: it is left out, and the log goes on without it.
ghost use Rattle.std.specs.Prelude.{◌≡◌, ◌<◌, [], IfErr, IfOk, length};
ghost use Rattle.ra_table.specs.Table.{empty_table};
ghost use Rattle.ra_trace.specs.LeftOut.{ChecksAll};
ghost use Rattle.ra_trace.specs.LeftOutAlong.{AddsWrong, JudgedRead, LeavesOut, PassesBy, name_in};

use crate::line::Line;
use crate::line_source::LineRoom;
use crate::mark_log::MarkLog;
use crate::mark_log::whole_lines::next_whole_line;
use crate::mark_log::wrong_lines::{WrongLine, WrongLines};
use crate::text_limits::MAX_FOLLOWED;
use crate::{MarkCause, MarksSoFar, MarksWatcher, TraceError};
use ra_stamp::Name;
use ra_table::Table;
use std::alloc::Global;
use std::io::BufRead;

/// Returns the name of a line, if it is that of a mark.
fn name_in(read: &Option<Line>) -> Option<Name>
    ensures { result ≡ name_in read.now }
{
    match read {
        Some(Line::Marked(mark)) => Some(mark.entry().name),
        _ => None,
    }
}

/// Takes a line, or says why it is wrong, and leaves the log as it is. Without memory, nothing is promised of the log.
///
/// # Errors
///
/// `Memory`: memory ran out.
#[inline(always)]
fn judge(log: &mut MarkLog, read: &Option<Line>) -> Result<Option<MarkCause>, TraceError>
    requires requests { log.old.requests < 9223372036854775809 }
    requires grants { log.old.grants < 9223372036854775809 }
    ensures { JudgedRead log.old read.now log.new result }
{
    match read {
        Some(Line::Marked(mark)) => log.take_mark(mark),
        _ => Ok(Some(MarkCause::Line)),
    }
}

/// Takes the line with this number, or adds it to the wrong ones. The watcher is shown it if it is right, or the first
/// wrong one on its name.
///
/// # Errors
///
/// `Memory`: memory ran out.
#[inline(always)]
fn take_or_leave_out<W: MarksWatcher>(
    log: &mut MarkLog,
    wrong: &mut WrongLines,
    watcher: &mut W,
    line: u64,
    read: &Option<Line>,
) -> Result<(), TraceError>
    requires requests { log.old.requests < 9223372036854775809 }
    requires grants { log.old.grants < 9223372036854775809 }
    requires few { length wrong.old < 9223372036854775809 }
    ensures adds { IfOk result (λ done. AddsWrong log.old wrong.old read.now line log.new wrong.new) }
    ensures memory { IfErr result (λ fault. fault ≡ TraceError.Memory) }
    ensures told { W.told watcher.new ≡ W.told watcher.old }
{
    let refused = match judge(log, read) {
        Ok(refused) => refused,
        Err(fault) => return Err(fault),
    };
    let Some(cause) = refused else {
        if let Some(Line::Marked(mark)) = read {
            watcher.took(line, mark);
        }
        return Ok(());
    };
    let name = name_in(read);
    let Ok(is_first) = wrong.add(&WrongLine { line, cause, name }) else {
        return Err(TraceError::Memory);
    };
    if is_first {
        watcher.refused(line, read, cause);
    }
    Ok(())
}

/// Reads a log to its end, in a log that has taken no line yet, and returns how many lines it has. Those that are wrong
/// are added to `wrong`, and the log takes the others.
///
/// # Errors
///
/// Those of `check_all_marks`.
fn leave_out<B: BufRead, W: MarksWatcher>(
    log: &mut MarkLog,
    reader: &mut B,
    wrong: &mut WrongLines,
    watcher: &mut W,
) -> Result<u64, TraceError>
    requires empty { log.old ≡ record { table = empty_table; requests = 0; grants = 0 } }
    requires none { wrong.old ≡ [] }
    ensures leaves { LeavesOut 9223372036854775808 (B.remaining reader.old) (B.remaining reader.new)
        log.new wrong.new result }
    ensures told { W.told watcher.new ≡ W.told watcher.old }
{
    let mut taken = 0;
    let mut room = LineRoom::new();
    let mut left = MAX_FOLLOWED as usize;
    let mut lines = 0;
    loop {
        let has_feed = match next_whole_line(reader, &mut room, &mut taken, left) {
            Ok(has_feed) => has_feed,
            Err(fault) => return Err(fault),
        };
        if taken == 0 {
            return Ok(lines);
        }
        lines += 1;
        match take_or_leave_out(log, wrong, watcher, lines, &room.line) {
            Ok(()) => {}
            Err(fault) => return Err(fault),
        }
        if !has_feed {
            return Ok(lines);
        }
        left -= taken;
    }
}

/// Returns whether a log passes: none of its lines is wrong and, if that is demanded, it is complete.
fn passes_without(demanded: bool, log: &MarkLog, wrong: &WrongLines) -> bool
    ensures { PassesBy demanded log.now wrong.now result }
{
    wrong.firsts().is_empty() && (!demanded || (log.requests > 0 && log.table.is_idle()))
}

/// Checks a log of marks, of which each wrong line is told and left out: the log goes on as if it were not there. So
/// the first wrong line is the one that [`check_marks`](crate::check_marks) names, and the next one is that of the log
/// without it. Returns how many lines there are, right and wrong, and how many requests and grants are among those that
/// are kept. `wrong`, which is to have no line yet, then has the wrong lines, by their numbers in the whole log.
/// `passes` becomes whether none is wrong and, if that is demanded, the log is complete, as
/// [`check_marks_buffered_with_end`](crate::check_marks_buffered_with_end) says.
///
/// The watcher is shown the mark of each line that is kept, and the first wrong line on each name. The log may be of any
/// length, and a line is read to its line feed. It keeps the present line, the lock table, which grows with the names
/// and with the entries that wait and hold, and what it tells of wrong lines, which grows with their names. The cost is
/// that of `check_marks_buffered`, plus what the watcher takes.
///
/// # Errors
///
/// Then nothing is promised of `wrong` and `passes`.
///
/// 1. `Read`: the reader failed.
/// 2. `Limit`: the text has more than 2^63 bytes.
/// 3. `Memory`: memory ran out.
pub fn check_all_marks<B: BufRead, W: MarksWatcher>(
    alloc: Global,
    reader: &mut B,
    wrong: &mut WrongLines,
    watcher: &mut W,
    demanded: bool,
    passes: &mut bool,
) -> Result<MarksSoFar, TraceError>
    requires { wrong.old ≡ [] }
    ensures checks { ChecksAll 9223372036854775808 demanded (B.remaining reader.old) (B.remaining reader.new)
        wrong.new result passes.new }
    ensures told { W.told watcher.new ≡ W.told watcher.old }
{
    let Ok(table) = Table::new(alloc) else {
        return Err(TraceError::Memory);
    };
    let mut log = MarkLog::new(table);
    let lines = match leave_out(&mut log, reader, wrong, watcher) {
        Ok(lines) => lines,
        Err(fault) => return Err(fault),
    };
    *passes = passes_without(demanded, &log, wrong);
    Ok(log.so_far(lines))
}
