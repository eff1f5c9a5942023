//! The lock table under the marks of a trace or of a log: whether it makes a mark, and the cause if it refuses one.
ghost use Rattle.std.specs.Prelude.{◌≡◌, ◌↔◌, Ok, None, IsTrue};
ghost use Rattle.ra_stamp.specs.declared.entry.Mark.{Mark};
ghost use Rattle.ra_table.specs.Laws.{AllowsMark};
ghost use Rattle.ra_trace.specs.Marks.{TriesMark};

use crate::{MarkCause, TraceError};
use ra_stamp::Mark;
use ra_table::{EnterError, LeaveError, RequestError, Table, WithdrawError};

/// Returns whether a lock table allows a mark, unless memory runs out. It does not allocate.
pub fn allows(table: &Table, mark: &Mark) -> bool
    ensures { IsTrue result ↔ AllowsMark table.now mark.now }
{
    match mark {
        Mark::Requested(entry) => table.can_request(entry),
        Mark::Entered(entry) => table.can_enter(entry),
        Mark::Left(entry) => table.holds(entry),
        Mark::Withdrawn(entry) => table.waits(entry),
    }
}

/// Makes the step of a mark in a lock table, or returns the first cause that the table has to refuse it, and leaves the
/// table unchanged. The cause is never `MarkCause::Line`. The cost is that of the table's `request`, `enter`, `leave`
/// or `withdraw`.
///
/// # Errors
///
/// `Memory`: memory ran out, and the table is unchanged. The table allows the mark.
pub fn try_mark(table: &mut Table, mark: &Mark) -> Result<Option<MarkCause>, TraceError>
    ensures tries { TriesMark table.old mark.now table.new result }
    ensures left { (result ≡ Ok None → ⊥) → table.new ≡ table.old }
{
    match mark {
        Mark::Requested(entry) => match table.request(*entry) {
            Ok(()) => Ok(None),
            Err(RequestError::NodeBusy) => Ok(Some(MarkCause::NodeBusy)),
            Err(RequestError::NotAbove) => Ok(Some(MarkCause::NotAbove)),
            Err(RequestError::Memory) => Err(TraceError::Memory),
        },
        Mark::Entered(entry) => match table.enter(entry) {
            Ok(()) => Ok(None),
            Err(EnterError::NotWaiting) => Ok(Some(MarkCause::NotWaiting)),
            Err(EnterError::Held) => Ok(Some(MarkCause::Held)),
            Err(EnterError::Earlier) => Ok(Some(MarkCause::Earlier)),
            Err(EnterError::Memory) => Err(TraceError::Memory),
        },
        Mark::Left(entry) => match table.leave(entry) {
            Ok(()) => Ok(None),
            Err(LeaveError::NotHeld) => Ok(Some(MarkCause::NotHeld)),
        },
        Mark::Withdrawn(entry) => match table.withdraw(entry) {
            Ok(()) => Ok(None),
            Err(WithdrawError::NotWaiting) => Ok(Some(MarkCause::NotWaiting)),
        },
    }
}
