//! The lines of traces.
pub mod field_ranges;
pub mod fields;
pub mod forms;
pub mod version;

ghost use Rattle.std.specs.Prelude.{◌≡◌, ◌++◌, None, IfSome, codes};
ghost use Rattle.ra_trace.specs.declared.line.Line.{Line};
ghost use Rattle.ra_trace.specs.Forms.{IsReadable};
ghost use Rattle.ra_trace.specs.TraceText.{line_text};

use crate::line::forms::read_line_of;
use crate::line::version::Version;
use ra_stamp::{Mark, Message, NodeId};
use ra_world::Step;

/// A line of a trace.
#[derive(Clone, Copy)]
pub enum Line {
    /// The first one: the version of the trace, how many nodes there are, and the number that each resource begins
    /// with.
    First {
        version: Version,
        nodes: NodeId,
        start: u64,
    },
    /// A step.
    Stepped(Step),
    /// A message that the step before sends.
    Sent(Message),
    /// A mark of the step before.
    Marked(Mark),
    /// The last one.
    Last,
}

impl Line {
    /// Returns the line that a text is without its line feed, or `None` if it has no form of a line, with each field in
    /// the range of version 3. Whether the trace's version allows it, and whether it may come at this point, is not
    /// asked. It does not allocate, and the cost is linear in the text.
    pub fn parse(text: &[u8]) -> Option<Line>
        ensures line { IfSome result (λ line. IsReadable line × (text.now ++ codes "\n" ≡ line_text line)) }
        ensures none { result ≡ None → (line : Line) → IsReadable line → text.now ++ codes "\n" ≡ line_text line → ⊥ }
    {
        let mut line = None;
        read_line_of(text, &mut line);
        line
    }
}
