pub mod follow;

ghost use Rattle.std.specs.Prelude.{◌≡◌, ◌≤◌, ◌-◌, ℕ, List, Option, IfOk};
ghost use Rattle.ra_trace.specs.Due.{TellsDue};
ghost use Rattle.ra_trace.specs.declared.checker.Judgement.{Judgement};
ghost use Rattle.ra_trace.specs.declared.checker.verdict.Cause.{Cause};
ghost use Rattle.ra_trace.specs.declared.checker.verdict.Verdict.{Verdict};
ghost use Rattle.ra_trace.specs.Along.{IsAlong, Opens, SomeTaken, Turns};
ghost use Rattle.ra_trace.specs.Check.{ChecksTrace};
ghost use Rattle.ra_trace.specs.Checking.{HasSameDue};
ghost use Rattle.ra_trace.specs.Complete.{TellsTrace};
ghost use Rattle.ra_trace.specs.CompleteAlong.{AtEnd, MeetsBy};
ghost use Rattle.ra_trace.specs.NextLine.{EndsText};
ghost use Rattle.ra_trace.specs.Reading.{Answers};

use crate::checker::{Checker, Judgement};
use crate::line::Line;
use crate::line_source::{ByBytes, FromBuffer, LineRoom, LineSource};
use crate::text_limits::MAX_TEXT;
use crate::{Cause, TraceError, Verdict};
use ra_text::next_byte;
use std::alloc::Global;
use std::io::{BufRead, Read};

/// The verdict of a text that does not begin with the first line of a trace.
const NOT_OPENED: Verdict = Verdict::Invalid {
    line: 1,
    cause: Cause::Line,
};

/// Returns the verdict after a right last line, for which it reads one byte. A line after it would have this number,
/// and the text may still have `left` bytes.
///
/// # Errors
///
/// `Read`: the reader failed. `Limit`: a byte came, and none is left.
fn ending<R: Read>(
    reader: &mut R,
    checker: &Checker,
    left: usize,
    number: u64,
) -> Result<Verdict, TraceError>
    ensures { EndsText left (R.remaining reader.old) (R.remaining reader.new) checker.now number result }
{
    match next_byte(reader) {
        Ok(None) => Ok(Verdict::Valid {
            requests: checker.world.requests(),
            messages: checker.world.sent(),
        }),
        Ok(Some(_)) if left == 0 => Err(TraceError::Limit),
        Ok(Some(_)) => Ok(Verdict::Invalid {
            line: number,
            cause: Cause::Line,
        }),
        Err(_) => Err(TraceError::Read), // It can only be `Read`, as no memory is taken.
    }
}

/// Takes the first line, and answers the checker after it, or `None` if none comes that may begin a trace. `taken`
/// becomes the number of its bytes.
///
/// # Errors
///
/// `Read`, `Limit`, `Memory`.
fn take_first<R: Read, S: LineSource<R>>(
    alloc: Global,
    reader: &mut R,
    taken: &mut usize,
    limit: usize,
) -> Result<Option<Checker>, TraceError>
    ensures opened { Opens limit (R.remaining reader.old) (R.remaining reader.new) taken.new result }
    ensures within { IfOk result (λ opened. taken.new ≤ limit) }
{
    let mut room = LineRoom::new();
    match S::next_line(reader, &mut room, taken, limit) {
        Ok(()) => {}
        Err(fault) => return Err(fault),
    }
    match &room.line {
        Some(line) => Checker::after_first(alloc, line),
        None => Ok(None),
    }
}

/// Reads the next line, has the checker take it, and says what it is. `taken` becomes the number of its bytes. The text
/// may still have `left` bytes.
///
/// # Errors
///
/// `Read`, `Limit`, `Memory`.
fn take_next<R: Read, S: LineSource<R>>(
    alloc: Global,
    reader: &mut R,
    room: &mut LineRoom,
    taken: &mut usize,
    checker: &mut Checker,
    left: usize,
) -> Result<Judgement, TraceError>
    ensures turned { (limit number : ℕ) (old : Option (List ℕ))
        → IsAlong limit left old (R.remaining reader.old) checker.old number
        → Turns limit left old (R.remaining reader.new) checker.new number taken.new result }
    ensures some { IfOk result (λ next. SomeTaken left taken.new next) }
    ensures due { IfOk result
        (λ next. (cause : Cause) → next ≡ Judgement.Wrong cause → HasSameDue checker.old checker.new) }
{
    match S::next_line(reader, room, taken, left) {
        Ok(()) => {}
        Err(fault) => return Err(fault),
    }
    match &room.line {
        Some(line) => checker.take(alloc, line),
        None => Ok(Judgement::Wrong(Cause::Line)),
    }
}

/// Returns the verdict of a text whose first line has this many bytes, from the checker after that line. If a line is
/// wrong for its sends or its marks, `due` becomes the line that was due there. If the text is valid, the checker has
/// then taken all of it.
///
/// # Errors
///
/// `Read`, `Limit`, `Memory`.
fn verdict_after<R: Read, S: LineSource<R>>(
    alloc: Global,
    reader: &mut R,
    first: usize,
    checker: &mut Checker,
    limit: usize,
    due: &mut Option<Line>,
) -> Result<Verdict, TraceError>
    requires most { limit ≤ 16777216 }
    requires within { first ≤ limit }
    ensures answers { (old : Option (List ℕ))
        → IsAlong limit (limit - first) old (R.remaining reader.old) checker.old 2
        → Answers limit old (R.remaining reader.new) result }
    ensures due { (old : Option (List ℕ))
        → IsAlong limit (limit - first) old (R.remaining reader.old) checker.old 2
        → TellsDue old result due.new }
    ensures end { (old : Option (List ℕ))
        → IsAlong limit (limit - first) old (R.remaining reader.old) checker.old 2
        → AtEnd old (R.remaining reader.new) checker.new result }
{
    let mut left = limit - first;
    let mut number = 2;
    let mut taken = 0;
    let mut room = LineRoom::new();
    loop {
        let next = match take_next::<R, S>(alloc, reader, &mut room, &mut taken, checker, left) {
            Ok(next) => next,
            Err(fault) => return Err(fault),
        };
        if let Judgement::Wrong(cause) = next {
            *due = checker.next_due();
            return Ok(Verdict::Invalid {
                line: number,
                cause,
            });
        }
        number += 1;
        left -= taken;
        if let Judgement::Last = next {
            return ending(reader, checker, left, number);
        }
    }
}

/// Checks the text of a trace of any version. Returns that it is the trace of a run, with the counts of requests and
/// messages, or which line is the first wrong one, and why. In version 1, a line with a node above 16, with a mode
/// other than `S` and `X`, or of a repeat is wrong. Only version 3 has lines of cancels, withdrawals and forgetting,
/// and lines of sends if its first line says so.
///
/// It goes line by line, makes each step in a world of its own and each mark in a lock table, and believes neither. The
/// verdict comes at the first wrong line. Nothing is read after its line feed or its 128th byte, since each line is
/// shorter; after the last line of a trace, one byte is read. It keeps no more of the text than the present line. It
/// reads at most `limit + 1` bytes, each by a read of its own, so a reader with a buffer is best; a byte past the limit
/// is not looked at. No read that failed is tried again. The cost is linear in what is read, plus that of the steps and
/// the marks, as `World::step` and `Table` say. Reading a line takes no memory.
///
/// # Errors
///
/// If no verdict was reached before:
///
/// 1. `Read`: the reader failed.
/// 2. `Limit`: the text has more than `limit` bytes.
/// 3. `Memory`: memory ran out.
pub fn check_within<R: Read>(
    alloc: Global,
    reader: &mut R,
    limit: u64,
) -> Result<Verdict, TraceError>
    requires { limit ≤ 16777216 }
    ensures { ChecksTrace limit (R.remaining reader.old) (R.remaining reader.new) result }
{
    let limit = limit as usize;
    let mut taken = 0;
    match take_first::<R, ByBytes>(alloc, reader, &mut taken, limit) {
        Ok(Some(mut checker)) => verdict_after::<R, ByBytes>(
            alloc,
            reader,
            taken,
            &mut checker,
            limit,
            &mut None,
        ),
        Ok(None) => Ok(NOT_OPENED),
        Err(fault) => Err(fault),
    }
}

/// Checks the text of a trace of at most 16,777,216 bytes, as `check_within` does.
///
/// # Errors
///
/// Those of `check_within`.
pub fn check<R: Read>(alloc: Global, reader: &mut R) -> Result<Verdict, TraceError>
    ensures { ChecksTrace 16777216 (R.remaining reader.old) (R.remaining reader.new) result }
{
    check_within(alloc, reader, MAX_TEXT)
}

/// Checks the text of a trace as `check` does, and takes from the buffer of the reader exactly what `check` reads. It
/// looks through the buffer up to a line feed, and takes no byte after it. It is the faster of the two. If the text
/// ends before its last line, the reader is asked once more by a read of one byte, after it showed nothing.
///
/// # Errors
///
/// Those of `check_within`.
pub fn check_buffered<B: BufRead>(alloc: Global, reader: &mut B) -> Result<Verdict, TraceError>
    ensures { ChecksTrace 16777216 (B.remaining reader.old) (B.remaining reader.new) result }
{
    check_buffered_with_due(alloc, reader, &mut None)
}

/// Returns whether a text with this result passes, by the checker that has taken all of it if it is valid: it is, and
/// it is complete if that is demanded.
fn passes_at_end(demanded: bool, checker: &Checker, checked: &Result<Verdict, TraceError>) -> bool
    ensures { MeetsBy demanded checker.now checked.now result }
{
    match checked {
        Ok(Verdict::Valid { .. }) => !demanded || checker.is_complete(),
        _ => false,
    }
}

/// Checks the text of a trace as [`check_buffered`] does. If the verdict is that a line is wrong for its sends or its
/// marks (`Cause::Sends`, `Cause::Marks`), `due` becomes the line of the next message or mark of the step before, which
/// should come there, or `None` if all of them came before. For any other result nothing is promised of `due`.
///
/// # Errors
///
/// Those of `check_within`.
pub fn check_buffered_with_due<B: BufRead>(
    alloc: Global,
    reader: &mut B,
    due: &mut Option<Line>,
) -> Result<Verdict, TraceError>
    ensures checks { ChecksTrace 16777216 (B.remaining reader.old) (B.remaining reader.new) result }
    ensures due { TellsDue (B.remaining reader.old) result due.new }
{
    check_buffered_with_end(alloc, reader, false, due, &mut false)
}

/// Checks the text of a trace as [`check_buffered_with_due`] does, and tells in `passes` whether it passes: it is valid
/// and, if that is demanded, complete. A trace is complete if something was requested in it and, at its end, no request
/// waits or holds, no message is under way, and no client is queued. If there is no verdict, nothing is promised of
/// `passes`. The cost is that of `check_buffered`, and if it is demanded also linear in the numbers of names and nodes.
///
/// # Errors
///
/// Those of `check_within`.
pub fn check_buffered_with_end<B: BufRead>(
    alloc: Global,
    reader: &mut B,
    demanded: bool,
    due: &mut Option<Line>,
    passes: &mut bool,
) -> Result<Verdict, TraceError>
    ensures checks { ChecksTrace 16777216 (B.remaining reader.old) (B.remaining reader.new) result }
    ensures due { TellsDue (B.remaining reader.old) result due.new }
    ensures end { TellsTrace demanded (B.remaining reader.old) (B.remaining reader.new) result passes.new }
{
    let limit = MAX_TEXT as usize;
    let mut taken = 0;
    *passes = false;
    match take_first::<B, FromBuffer>(alloc, reader, &mut taken, limit) {
        Ok(Some(mut checker)) => {
            let result = verdict_after::<B, FromBuffer>(
                alloc,
                reader,
                taken,
                &mut checker,
                limit,
                due,
            );
            *passes = passes_at_end(demanded, &checker, &result);
            result
        }
        Ok(None) => Ok(NOT_OPENED),
        Err(fault) => Err(fault),
    }
}
