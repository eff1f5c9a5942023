//! The command `node`.
ghost use Rattle.std.specs.Prelude.{◌≤◌};
ghost use Rattle.ra_cli.specs.NodeRun.{ServesNode};

use crate::output::{ALL_DONE, CommandOutcome, REFUSED, refuse};
use crate::refusal_lines::CommandRefusal;
use crate::remark::Remark;
use ra_book_text::{BookFault, answer_book};
use std::alloc::Global;
use std::io::{BufRead, Write};

/// Answers the lines of the reader's book as the node that its first line names, and returns the outcome. The status
/// is 0 at the end of the input, 2 if its first line does not begin a book, and 1 if the reader or the writer failed.
pub fn be_a_node<R: BufRead, W: Write>(
    alloc: Global,
    reader: &mut R,
    writer: &mut W,
) -> CommandOutcome
    ensures range { result.status ≤ 2 }
    ensures serves { ServesNode (R.remaining reader.old) (R.remaining reader.new)
        (W.contents writer.old) (W.contents writer.new) result.status }
{
    match answer_book(alloc, reader, writer) {
        Ok(()) => ALL_DONE,
        // This was answered, so its line is written already.
        Err(BookFault::Line) => CommandOutcome {
            status: REFUSED,
            remark: Some(Remark::Refused(CommandRefusal::Node(BookFault::Line))),
        },
        Err(BookFault::Read) => refuse(writer, CommandRefusal::Node(BookFault::Read)),
        Err(BookFault::Write) => refuse(writer, CommandRefusal::Node(BookFault::Write)),
    }
}
