pub mod check_text;
pub mod trace_watcher;
pub mod verdict;

ghost use Rattle.std.specs.Prelude.{◌≡◌, ◌≢◌, ◌==◌, ◌&&◌, ◌<◌, ◌+◌, ◌^◌, ◌⊎◌, List, ◌∷◌, [], Ok, Some, false, drop, length, slice_get, IfOk, IfErr, IfSome, IsNone, IsTrue, nat_lt};
ghost use Rattle.ra_stamp.specs.declared.entry.Mark.{Mark};
ghost use Rattle.ra_stamp.specs.declared.message.Message.{Message};
ghost use Rattle.ra_trace.specs.declared.checker.verdict.Cause.{Cause};
ghost use Rattle.ra_trace.specs.declared.line.version.Version.{Version};
ghost use Rattle.ra_trace.specs.Forms.{IsReadable};
ghost use Rattle.ra_trace.specs.TraceText.{IsLine};
ghost use Rattle.ra_trace.specs.Verdict.{IsFirst, due_lines, marks_due};

use crate::line::Line;
use crate::line::version::Version;
use crate::marked_table::{allows, try_mark};
use crate::{Cause, TraceError};
use ra_stamp::{Mark, Marks, Message, Messages, equal_is_same};
use ra_table::Table;
use ra_world::{MarklessWorld, StepError};
use std::alloc::Global;

/// What a checker knows after the lines that it took: the version that the first one names, the world after their
/// steps, the lock table after their marks, and which sends and marks of the last step have not come yet. It keeps
/// nothing of the text.
#[derive(Drop)]
pub struct Checker {
    version: Version,
    /// It keeps no marks, since only those of the last step are looked at.
    world: MarklessWorld,
    table: Table,
    /// The messages that the last step sends.
    sends: Messages,
    /// How many of them have been told, if the version tells them.
    told: u64,
    /// The marks of the last step.
    marks: Marks,
    /// How many of them have come.
    come: u64,
}

/// What the checker says of a line.
#[derive(Clone, Copy)]
pub enum Judgement {
    /// It is right, and not the last one.
    Right,
    /// It is right, and the last one.
    Last,
    /// It is wrong.
    Wrong(Cause),
}

/// Returns whether something was requested and nothing is left, by how many requests were made, whether none of them
/// waits or holds, and how many messages are under way and clients are queued.
fn nothing_is_left(requests: u128, is_idle: bool, under_way: u64, queued: u128) -> bool
    ensures { result ≡ (nat_lt 0 requests && is_idle && (under_way == 0) && (queued == 0)) }
{
    requests > 0 && is_idle && under_way == 0 && queued == 0
}

impl Checker {
    ghost use Rattle.ra_trace.specs.Checking.{all_due, due_of, unsent_of, HasSameDue, Judged, IsCheckerOf};
    ghost use Rattle.ra_trace.specs.Complete.{IsCompleteBy};
    ghost use Rattle.ra_trace.specs.Reading.{HasBegun};

    /// Makes the checker after this line, or answers `None` if it is not a first line of its version.
    ///
    /// # Errors
    ///
    /// `Memory`: memory ran out.
    pub fn after_first(alloc: Global, line: &Line) -> Result<Option<Checker>, TraceError>
        ensures some { IfOk result (λ opened.
            IfSome opened (λ checker. IsReadable line.now → IsCheckerOf checker (line.now ∷ []))) }
        ensures none { IfOk result (λ opened. IsNone opened
            → (version : Version) → IsLine version line.now → IsFirst line.now → ⊥) }
        ensures err { IfErr result (λ fault. (fault ≡ TraceError.Memory)
            × (IsReadable line.now → HasBegun (line.now ∷ []))) }
    {
        let Line::First {
            version,
            nodes,
            start,
        } = line
        else {
            return Ok(None);
        };
        if !version.has_node(*nodes) {
            return Ok(None);
        }
        // There are 1 to 64 nodes, so only `Memory` can come.
        let Ok(world) = MarklessWorld::new(alloc, nodes.get(), *start) else {
            return Err(TraceError::Memory);
        };
        match Table::new(alloc) {
            Ok(table) => Ok(Some(Checker {
                version: *version,
                world,
                table,
                sends: Messages::new(alloc),
                told: 0,
                marks: Marks::new(alloc),
                come: 0,
            })),
            Err(_) => Err(TraceError::Memory),
        }
    }

    /// Takes the next line, and answers what it is. It steps the world and the lock table itself, and believes neither
    /// steps nor marks. After a wrong line, only what is due is promised about the checker, and without memory nothing.
    /// The cost is that of one step of the world or of the lock table.
    ///
    /// # Errors
    ///
    /// `Memory`: memory ran out.
    pub fn take(&mut self, alloc: Global, line: &Line) -> Result<Judgement, TraceError>
        ensures judged { Judged self.old line.now self.new result }
        ensures due { IfOk result
            (λ next. (cause : Cause) → next ≡ Judgement.Wrong cause → HasSameDue self.old self.new) }
    {
        match line {
            Line::First { .. } => Ok(Judgement::Wrong(Cause::Line)),
            Line::Stepped(step) => {
                if !self.version.allows_step(step) {
                    return Ok(Judgement::Wrong(Cause::Line));
                }
                if let Some(cause) = self.early() {
                    return Ok(Judgement::Wrong(cause));
                }
                // Most messages are delivered in the order of sending, so each is looked for at the first place.
                match self.world.step_near(alloc, step, 0) {
                    Ok(outcome) => {
                        self.sends = outcome.sends;
                        self.told = 0;
                        self.marks = outcome.marks;
                        self.come = 0;
                        Ok(Judgement::Right)
                    }
                    Err(StepError::Memory) => Err(TraceError::Memory),
                    Err(StepError::NotUnderWay) => Ok(Judgement::Wrong(Cause::NotUnderWay)),
                    Err(StepError::NoNode) => Ok(Judgement::Wrong(Cause::Refused)),
                    Err(StepError::Node(_)) => Ok(Judgement::Wrong(Cause::Refused)),
                }
            }
            Line::Sent(message) => Ok(self.take_sent(message)),
            Line::Marked(mark) => self.take_mark(mark),
            Line::Last => match self.early() {
                Some(cause) => Ok(Judgement::Wrong(cause)),
                None => Ok(Judgement::Last),
            },
        }
    }

    /// Returns whether the run so far is complete: something was requested, no request waits or holds, no message is
    /// under way, and no client is queued. It does not allocate. The cost is linear in the numbers of names and nodes.
    pub fn is_complete(&self) -> bool
        ensures { IsCompleteBy self.now.world.count self.now.world.start self.now.world.moves self.now.table result }
    {
        nothing_is_left(
            self.world.requests(),
            self.table.is_idle(),
            self.world.under_way(),
            self.world.queued(),
        )
    }

    /// Returns the line that is due next, or `None` if nothing is due.
    pub fn next_due(&self) -> Option<Line>
        ensures { result ≡ slice_get (due_lines (all_due self.now)) 0 }
    {
        if self.has_unsent() {
            return match self.sends.at(self.told) {
                Some(message) => Some(Line::Sent(message)),
                None => None,
            };
        }
        match self.marks.at(self.come) {
            Some(mark) => Some(Line::Marked(mark)),
            None => None,
        }
    }

    /// Returns why no step and no last line may come yet, or `None` if nothing is due.
    fn early(&self) -> Option<Cause>
        ensures none { IsNone result → all_due self.now ≡ marks_due [] }
        ensures sends { result ≡ Some Cause.Sends → unsent_of self.now ≢ [] }
        ensures marks { result ≡ Some Cause.Marks → (all_due self.now ≡ marks_due (due_of self.now))
            × (due_of self.now ≢ []) }
        ensures cause { IfSome result (λ cause. (cause ≡ Cause.Sends) ⊎ (cause ≡ Cause.Marks)) }
    {
        if self.has_unsent() {
            return Some(Cause::Sends);
        }
        if self.has_due() {
            return Some(Cause::Marks);
        }
        None
    }

    /// Returns whether a message of the last step has not been told yet.
    fn has_unsent(&self) -> bool
        ensures some { IsTrue result → unsent_of self.now ≢ [] }
        ensures none { result ≡ false → unsent_of self.now ≡ [] }
    {
        self.version.has_sends() && self.told < self.sends.len()
    }

    /// Returns whether this is the next message that the last step sends.
    fn is_next(&self, message: &Message) -> bool
        ensures fits { IsTrue result → self.now.told + 1 < 2 ^ 64 }
        ensures next { IsTrue result
            → drop self.now.told self.now.sends.items ≡ message.now ∷ drop (self.now.told + 1) self.now.sends.items }
        ensures other { result ≡ false → (others : List Message)
            → drop self.now.told self.now.sends.items ≢ message.now ∷ others }
    {
        // For the proof: messages that compare equal are the same.
        equal_is_same();
        match self.sends.as_slice().get(self.told as usize) {
            Some(next) => *next == *message,
            None => false,
        }
    }

    /// Takes the line of a message that is sent.
    fn take_sent(&mut self, message: &Message) -> Judgement
        ensures judged { Judged self.old (Line.Sent message.now) self.new (Ok result) }
        ensures due { (cause : Cause) → result ≡ Judgement.Wrong cause → HasSameDue self.old self.new }
    {
        if !self.version.allows_sent(message) {
            return Judgement::Wrong(Cause::Line);
        }
        if !self.is_next(message) {
            return Judgement::Wrong(Cause::Sends);
        }
        self.told += 1;
        Judgement::Right
    }

    /// Returns whether a mark of the last step has not come yet.
    fn has_due(&self) -> bool
        ensures some { IsTrue result → due_of self.now ≢ [] }
        ensures none { result ≡ false → due_of self.now ≡ [] }
    {
        self.come < self.marks.len()
    }

    /// Returns whether this is the next mark that is due.
    fn is_due(&self, mark: &Mark) -> bool
        ensures within { IsTrue result → self.now.come < length self.now.marks.items }
        ensures fits { IsTrue result → self.now.come + 1 < 2 ^ 64 }
        ensures next { IsTrue result
            → due_of self.now ≡ mark.now ∷ drop (self.now.come + 1) self.now.marks.items }
        ensures other { result ≡ false → (others : List Mark) → due_of self.now ≢ mark.now ∷ others }
    {
        // For the proof: marks that compare equal are the same.
        equal_is_same();
        match self.marks.as_slice().get(self.come as usize) {
            Some(due) => *due == *mark,
            None => false,
        }
    }

    /// Takes a mark's line. A message that has yet to be told comes first, then what the lock table says about the
    /// mark. The table grows only for a mark that is due.
    ///
    /// # Errors
    ///
    /// `Memory`: memory ran out.
    fn take_mark(&mut self, mark: &Mark) -> Result<Judgement, TraceError>
        ensures judged { Judged self.old (Line.Marked mark.now) self.new result }
        ensures due { IfOk result
            (λ next. (cause : Cause) → next ≡ Judgement.Wrong cause → HasSameDue self.old self.new) }
    {
        if !self.version.allows_mark(mark) {
            return Ok(Judgement::Wrong(Cause::Line));
        }
        if self.has_unsent() {
            return Ok(Judgement::Wrong(Cause::Sends));
        }
        if !self.is_due(mark) {
            if allows(&self.table, mark) {
                return Ok(Judgement::Wrong(Cause::Marks));
            }
            return Ok(Judgement::Wrong(Cause::Table));
        }
        let refused = match try_mark(&mut self.table, mark) {
            Ok(refused) => refused,
            Err(fault) => return Err(fault),
        };
        match refused {
            Some(_) => Ok(Judgement::Wrong(Cause::Table)),
            None => {
                self.come += 1;
                Ok(Judgement::Right)
            }
        }
    }
}
