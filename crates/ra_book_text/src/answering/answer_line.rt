//! The answer to a line of a book after the first.
ghost use Rattle.std.specs.Prelude.{ℕ, List, IfOk, MatchResult};
ghost use Rattle.ra_book_text.specs.Answers.{Answers, Reacts, Stays};
ghost use Rattle.ra_book_text.specs.Input.{IsKeptLine};
ghost use Rattle.ra_book_text.specs.Output.{Puts};
ghost use Rattle.ra_book.specs.Timed.{FitAt};

use crate::answering::answer_texts::put_outcome;
use crate::answering::line_refusal::refused_line;
use crate::answering::waiting_output::{Output, put};
use crate::next_line::event_line::event_of;
use crate::next_line::kept_line::KeptLine;
use crate::{BookVersion, Refusal, TimedNode};
use ra_node::Outcome;
use std::alloc::Global;
use std::io::Write;

/// Hands a line of a book of this version to a node, and returns what the node sends and marks.
///
/// # Errors
///
/// `Line` for a line that is too long or that the version of the book does not have, and the errors of `event_of` and
/// of [`TimedNode::take`]. The node is as before.
fn react(
    alloc: Global,
    version: BookVersion,
    node: &mut TimedNode,
    line: &KeptLine,
) -> Result<Outcome, Refusal>
    ensures reacts { (text : List ℕ) → IsKeptLine text line.now.bytes.items line.now.is_long
        → MatchResult result (λ outcome. Reacts version node.old text outcome.sends.items outcome.marks.items node.new)
        (Stays version node.old text node.new) }
    ensures fits { IfOk result (λ outcome. FitAt node.new.clock outcome.sends.items) }
{
    if line.is_long {
        return Err(Refusal::Line);
    }
    // A match, since the prover makes no proof of a `?` on a result that holds a frame.
    match event_of(line.bytes.as_slice()) {
        Ok(kind) if !version.allows(&kind) => Err(Refusal::Line),
        Ok(kind) => match node.take(alloc, &kind) {
            Ok(outcome) => Ok(outcome),
            Err(cause) => Err(Refusal::Event(cause)),
        },
        Err(why) => Err(why),
    }
}

/// Hands a line of a book of this version to a node, and puts out the answer.
pub fn answer_line<W: Write>(
    alloc: Global,
    version: BookVersion,
    node: &mut TimedNode,
    line: &KeptLine,
    writer: &mut W,
    out: &mut Output,
)
    ensures { (read : List ℕ) → IsKeptLine read line.now.bytes.items line.now.is_long
        → (text : List ℕ) × Answers version node.old read text node.new
        × Puts (W.contents writer.old) (W.contents writer.new) out.old out.new text }
{
    match react(alloc, version, node, line) {
        Ok(outcome) => put_outcome(writer, out, node.clock(), &outcome),
        Err(why) => put(writer, out, refused_line(why).as_bytes()),
    }
}
