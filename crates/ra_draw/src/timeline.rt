//! What happens in the part of a text that is drawn. For a trace, a world of its own makes the steps again: most texts
//! have no line for a message that is sent, and only the nodes know which ones a step sends.
mod act;
mod deferral;
mod lock_span;
mod message_path;
mod moment;
mod open_locks;

ghost use Rattle.std.specs.Prelude.{◌≡◌, ◌++◌, ◌∷◌, false, List, [], if◌then◌else◌, is_some, IfOk, OnOk};
ghost use Rattle.ra_draw.specs.Following.{IsSamePage, Notes, NotesAll, numbers_of};
ghost use Rattle.ra_draw.specs.Pictures.{AreLines, is_trace};
ghost use Rattle.ra_trace.specs.declared.line.Line.{Line};

use crate::Part;
pub use act::Act;
pub use deferral::{Deferral, DeferralSpans};
use indexmap::IndexMap;
pub use lock_span::{LockKey, LockSpan, LockSpans};
pub use message_path::{MessageEnd, MessagePath, MessagePaths};
pub use moment::Moment;
pub use open_locks::{LockStage, OpenLock, OpenLocks};
use ra_stamp::{Mark, Memory, Message};
use ra_text::cut;
use ra_trace::Line;
use ra_world::{MarklessWorld, Step};
use std::alloc::Global;

/// The most sends and marks of a step: a REPLY and a REQUEST to each other node, and three marks. A client
/// leaves, and the next one of its node gets a number and enters.
const MOST_TOLD: u32 = 129;

/// The line of a step, and what a client or a node does by it, if anything.
#[derive(Clone, Copy)]
pub struct Row {
    pub line: u64,
    pub act: Option<Act>,
}

/// What is drawn of a run, as far as it was followed.
#[derive(Drop)]
pub struct Timeline {
    /// The number of nodes: all nodes of a trace, or the nodes of a log up to the highest one that it names in or
    /// before the part, at least one.
    pub nodes: u16,
    /// Whether the text is a mark log, which has no messages.
    pub is_log: bool,
    /// The moment of the last step, or of the last mark of a log.
    moment: Moment,
    /// Those of the part, in order.
    pub rows: Vec<Row>,
    pub paths: MessagePaths,
    pub deferrals: DeferralSpans,
    pub spans: LockSpans,
}

/// Returns the world of a trace before its first step, or `None` for a text that does not begin as a trace.
fn world_of(alloc: Global, text: &[u8]) -> Result<Option<MarklessWorld>, Memory>
    ensures { (lines : List Line) → AreLines lines text.now
        → IfOk result (λ world. is_some world ≡ is_trace lines) }
{
    let (first, _) = cut(text, b'\n');
    let Some(line) = &Line::parse(first) else {
        return Ok(None);
    };
    let Line::First { nodes, start, .. } = line else {
        return Ok(None);
    };
    match MarklessWorld::new(alloc, nodes.get(), *start) {
        Ok(world) => Ok(Some(world)),
        // A trace has 1 to 64 nodes, so memory ran out.
        Err(_) => Err(Memory),
    }
}

impl Timeline {
    /// Makes the timeline of a text before its first line.
    pub fn new(alloc: Global) -> Timeline
        ensures rows { result.rows.items ≡ [] }
        ensures nodes { result.nodes ≡ 1 }
    {
        Timeline {
            nodes: 1,
            is_log: false,
            moment: Moment { line: 0, row: 0 },
            rows: Vec::new(alloc),
            paths: MessagePaths {
                under_way: IndexMap::new(alloc),
                drawn: Vec::new(alloc),
                still_under_way: 0,
            },
            deferrals: DeferralSpans {
                all: Vec::new(alloc),
                open: IndexMap::new(alloc),
            },
            spans: LockSpans {
                all: Vec::new(alloc),
                open: IndexMap::new(alloc),
            },
        }
    }

    /// Begins the line of a step or of a mark of a log, with a row if it is in the part. An ask begins a lock span, and
    /// a leave or a cancel ends one.
    fn begin(&mut self, line: u64, act: Option<Act>, is_drawn: bool) -> Result<(), Memory>
        ensures rows { OnOk result (numbers_of self.new.rows.items
            ≡ numbers_of self.old.rows.items ++ (if is_drawn then line ∷ [] else [])) }
        ensures nodes { self.new.nodes ≡ self.old.nodes }
    {
        self.moment.line = line;
        if is_drawn {
            self.moment.row = self.moment.row.saturating_add(1);
        }
        let noted = match &act {
            Some(Act::Ask(key, mode)) => self.spans.ask(key, *mode, self.moment),
            Some(Act::Leave(key) | Act::Cancel(key)) => {
                self.spans.end(key, self.moment);
                Ok(())
            }
            _ => Ok(()),
        };
        let Ok(()) = noted else {
            return Err(Memory);
        };
        if is_drawn {
            let Ok(()) = self.rows.push(Row { line, act }) else {
                return Err(Memory);
            };
        }
        Ok(())
    }

    /// Notes the messages that a step sends, and the deferrals that it begins and ends: a delivered REQUEST without a
    /// REPLY is deferred, and a client that leaves or gives up sends what was deferred.
    fn note_sends(&mut self, alloc: Global, step: &Step, sends: &[Message]) -> Result<(), Memory>
        ensures { IsSamePage self.old self.new }
    {
        if let Step::Deliver(request) = step
            && let Message::Request { .. } = request
            && sends.is_empty()
        {
            // The path that was added last belongs to this request, if the step is drawn.
            if self.moment.row > 0
                && let Some(path) = self.paths.drawn.last_mut()
            {
                path.is_deferred = true;
            }
            let Ok(()) = self.deferrals.begin(request, self.moment) else {
                return Err(Memory);
            };
        }
        let ends_deferrals = matches!(step, Step::Leave { .. } | Step::Cancel { .. });
        for message in sends {
            if ends_deferrals && let Message::Reply { from, to, name, .. } = message {
                self.deferrals.end(&(*from, *to, *name), self.moment);
            }
            let Ok(()) = self.paths.begin(alloc, message, self.moment, false) else {
                return Err(Memory);
            };
        }
        Ok(())
    }

    /// Makes a step of a trace, and notes what it takes and what it sends.
    fn make_step(
        &mut self,
        alloc: Global,
        world: &mut Option<MarklessWorld>,
        step: &Step,
    ) -> Result<(), Memory>
        ensures page { IsSamePage self.old self.new }
        ensures world { is_some world.new ≡ is_some world.old }
    {
        let noted = match step {
            Step::Deliver(message) => self.paths.end(message, self.moment, false),
            Step::Lose(message) => self.paths.end(message, self.moment, true),
            Step::Repeat(message) => self.paths.begin(alloc, message, self.moment, true),
            Step::Ask { .. } | Step::Leave { .. } | Step::Cancel { .. } | Step::Forget { .. } => Ok(
                (),
            ),
        };
        let Ok(()) = noted else {
            return Err(Memory);
        };
        let Some(world) = world else {
            return Ok(());
        };
        match world.step(alloc, step) {
            Ok(outcome) => self.note_sends(alloc, step, outcome.sends.as_slice()),
            // No step of a trace is refused, so memory ran out.
            Err(_) => Err(Memory),
        }
    }

    /// Takes the mark of a line of a log. To be granted a name is shown by the client's bar alone.
    fn take_mark(&mut self, number: u64, mark: &Mark, is_drawn: bool) -> Result<(), Memory>
        ensures { OnOk result (Notes false is_drawn number (Line.Marked mark.now) self.old self.new) }
    {
        let entry = mark.entry();
        let act = Act::of_mark(mark);
        let Ok(()) = self.begin(number, act, is_drawn) else {
            return Err(Memory);
        };
        self.nodes = self.nodes.max(entry.stamp.node.get());
        self.spans.take(mark, self.moment);
        Ok(())
    }

    /// Takes a line, which is drawn or comes before the lines that are. Only in a mark log, which has no world, a mark
    /// has a row.
    fn take(
        &mut self,
        alloc: Global,
        world: &mut Option<MarklessWorld>,
        number: u64,
        line: &Line,
        is_drawn: bool,
    ) -> Result<(), Memory>
        ensures notes { OnOk result (Notes (is_some world.old) is_drawn number line.now self.old self.new) }
        ensures world { is_some world.new ≡ is_some world.old }
    {
        match line {
            Line::First { nodes, .. } => {
                self.nodes = nodes.get();
                Ok(())
            }
            Line::Stepped(step) => {
                let act = Act::of_step(step);
                self.begin(number, act, is_drawn)?;
                self.make_step(alloc, world, step)
            }
            Line::Marked(mark) if world.is_none() => self.take_mark(number, mark, is_drawn),
            Line::Marked(mark) => {
                self.spans.take(mark, self.moment);
                Ok(())
            }
            // The world sends again what this step sent.
            Line::Sent(_) | Line::Last => Ok(()),
        }
    }

    /// Takes the marks at the start of what follows the part of a trace: they are of its last step. Lines of what that
    /// sends may come before.
    fn take_last_marks(&mut self, following: &[u8])
        ensures { IsSamePage self.old self.new }
    {
        let mut rest = following;
        for _told in 0..MOST_TOLD {
            let (text, Some(after)) = cut(rest, b'\n') else {
                return;
            };
            match Line::parse(text) {
                Some(Line::Sent(_)) => {}
                Some(Line::Marked(mark)) => self.spans.take(&mark, self.moment),
                _ => return,
            }
            rest = after;
        }
    }

    /// Takes the lines of a text, to the last one of the part.
    fn take_lines(
        &mut self,
        alloc: Global,
        world: &mut Option<MarklessWorld>,
        text: &[u8],
        part: Part,
    ) -> Result<(), Memory>
        ensures { (lines : List Line) → AreLines lines text.now
            → OnOk result (NotesAll (is_some world.old) part lines self.old self.new) }
    {
        let mut rest = text;
        for before in 0..part.to {
            let (text, after) = cut(rest, b'\n');
            // The last line ends with a line feed, too.
            let Some(after) = after else {
                break;
            };
            rest = after;
            if let Some(line) = Line::parse(text) {
                let number = before + 1;
                let Ok(()) = self.take(alloc, world, number, &line, number >= part.from) else {
                    return Err(Memory);
                };
            }
        }
        if world.is_some() {
            self.take_last_marks(rest);
        }
        self.paths.close()
    }

    /// Follows a trace or a mark log from its beginning to the end of the part. Only a trace has a world, for its run.
    pub fn follow(&mut self, alloc: Global, text: &[u8], part: Part) -> Result<(), Memory>
        ensures { (lines : List Line) → AreLines lines text.now
            → OnOk result (NotesAll (is_trace lines) part lines self.old self.new) }
    {
        let Ok(mut world) = world_of(alloc, text) else {
            return Err(Memory);
        };
        self.is_log = world.is_none();
        self.take_lines(alloc, &mut world, text, part)
    }
}
