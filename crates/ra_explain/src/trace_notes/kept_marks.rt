//! What is kept of the lines of a mark log, so that notes can be made when the lines are gone.
use crate::note_parts::push_numbered;
use crate::trace_notes::obstacle::push_obstacle;
use crate::trace_notes::open_request::{OpenRequest, Stage};
use crate::trace_notes::open_requests::OpenRequests;
use crate::trace_notes::replay::{NumberLine, Replay, keep_greatest};
use crate::trace_notes::text_end::push_log_end;
use crate::trace_notes::text_line::TextLine;
use ra_stamp::{Entry, Mark, Memory, Name};
use ra_text::{Note, mark_line};
use ra_trace::{Line, MarkCause};
use std::alloc::Global;
use std::collections::HashMap;

/// An entry, and the line in which something became of it, counted from 1.
type EntryLine = (Entry, u64);

/// What is kept of the marks on one name.
#[derive(Drop)]
struct NameMarks {
    name: Name,
    /// The requests that wait or hold, in the order in which they were made.
    open: Vec<OpenRequest>,
    /// The greatest number that was granted.
    granted: Option<NumberLine>,
    /// The last entry that each node released.
    released: Vec<EntryLine>,
    /// The last entry that each node withdrew.
    withdrawn: Vec<EntryLine>,
}

/// Keeps in which line the node of an entry did the same last. Returns whether there was memory for it.
fn keep_last(last: &mut Vec<EntryLine>, entry: &Entry, line: u64) -> bool {
    for kept in last.iter_mut() {
        if kept.0.stamp.node == entry.stamp.node {
            *kept = (*entry, line);
            return true;
        }
    }
    last.push((*entry, line)).is_ok()
}

/// Returns what the node of an entry did last, if it did it.
fn last_of(last: &[EntryLine], entry: &Entry) -> Option<EntryLine> {
    for kept in last {
        if kept.0.stamp.node == entry.stamp.node {
            return Some(*kept);
        }
    }
    None
}

/// Returns in which line this was done to an entry, if it is the last one to which its node did it.
fn line_of(last: &[EntryLine], entry: &Entry) -> Option<u64> {
    match last_of(last, entry) {
        Some((kept, line)) if kept == *entry => Some(line),
        _ => None,
    }
}

impl NameMarks {
    /// Adds the requests that wait or hold to these.
    fn add_open(&self, open: &mut OpenRequests) {
        for request in self.open.iter() {
            let mark = if request.stage.is(Stage::Holds) {
                Mark::Entered(request.entry)
            } else {
                Mark::Requested(request.entry)
            };
            open.take_mark(&mark, request.since);
        }
    }

    /// Makes what is kept of a name without marks.
    fn new(alloc: Global, name: &Name) -> NameMarks {
        NameMarks {
            name: *name,
            open: Vec::new(alloc),
            granted: None,
            released: Vec::new(alloc),
            withdrawn: Vec::new(alloc),
        }
    }

    /// Keeps what the mark in the line with this number says. Returns whether there was memory for it.
    fn take(&mut self, line: u64, mark: &Mark) -> bool {
        let entry = *mark.entry();
        match mark {
            Mark::Requested(_) => {
                let open = OpenRequest {
                    entry,
                    stage: Stage::Waits,
                    since: line,
                };
                self.open.push(open).is_ok()
            }
            Mark::Entered(_) => {
                self.grant(line, &entry);
                true
            }
            Mark::Left(_) => {
                self.close(&entry);
                keep_last(&mut self.released, &entry, line)
            }
            Mark::Withdrawn(_) => {
                self.close(&entry);
                keep_last(&mut self.withdrawn, &entry, line)
            }
        }
    }

    /// Keeps no longer that an entry waits or holds.
    fn close(&mut self, entry: &Entry) {
        self.open.retain(|open| open.entry != *entry);
    }

    /// Keeps that an entry was granted in the line with this number.
    fn grant(&mut self, line: u64, entry: &Entry) {
        for open in self.open.iter_mut() {
            if open.entry == *entry {
                open.stage = Stage::Holds;
                open.since = line;
            }
        }
        keep_greatest(&mut self.granted, entry.stamp.seq, line);
    }
}

/// What is kept of the lines of a mark log, all of which are right. It grows with the names and with the entries that
/// wait and hold, and not with the lines.
pub struct KeptMarks {
    alloc: Global,
    names: Vec<NameMarks>,
    /// At which place of these each name is.
    places: HashMap<Name, usize>,
    /// At which place the name of the last mark is.
    latest: usize,
    /// Whether there was memory for everything.
    is_whole: bool,
}

// What it owns is freed here, so that no other crate proves how each of its parts is dropped.
impl Drop for KeptMarks {
    fn drop(self) {
        let KeptMarks {
            alloc: _,
            names: _,
            places: _,
            latest: _,
            is_whole: _,
        } = self;
    }
}

impl KeptMarks {
    /// Makes what is kept of a log without lines. It does not allocate.
    pub fn new(alloc: Global) -> KeptMarks {
        KeptMarks {
            alloc,
            names: Vec::new(alloc),
            places: HashMap::new(alloc),
            latest: 0,
            is_whole: true,
        }
    }

    /// Keeps what the mark in the line with this number says. The cost is linear in the entries that wait and hold on
    /// its name; a name is not looked for if it is that of the mark before, or the one that first came after that.
    pub fn take(&mut self, line: u64, mark: &Mark) {
        let is_kept = match self.marks_on(&mark.entry().name) {
            Some(marks) => marks.take(line, mark),
            None => false,
        };
        self.is_whole = self.is_whole && is_kept;
    }

    /// Returns at which place a name is, if it has marks.
    fn place_of(&self, name: &Name) -> Option<usize> {
        for place in [self.latest, self.latest.wrapping_add(1)] {
            if matches!(self.names.get(place), Some(marks) if marks.name == *name) {
                return Some(place);
            }
        }
        self.places.get(name).copied()
    }

    /// Returns what is kept of the marks on a name, or `None` if there is no memory for it.
    fn marks_on(&mut self, name: &Name) -> Option<&mut NameMarks> {
        let place = match self.place_of(name) {
            Some(place) => place,
            None => {
                let place = self.names.len();
                self.names.push(NameMarks::new(self.alloc, name)).ok()?;
                self.places.insert(*name, place).ok()?;
                place
            }
        };
        self.latest = place;
        self.names.get_mut(place)
    }

    /// Returns what the lines say of this mark in the wrong line after them.
    fn replay(&self, subject: &Mark) -> Replay {
        let entry = subject.entry();
        let mut replay = Replay::new(self.alloc, Some(*subject), None);
        if let Some(place) = self.place_of(&entry.name)
            && let Some(marks) = self.names.get(place)
        {
            marks.add_open(&mut replay.open);
            replay.granted = marks.granted;
            replay.released_at = line_of(&marks.released, entry);
            replay.withdrawn_at = line_of(&marks.withdrawn, entry);
            replay.released = last_of(&marks.released, entry);
        }
        replay.open.is_whole = replay.open.is_whole && self.is_whole;
        replay
    }

    /// Returns the note on the first wrong line of a mark log, the one with the number `line`, counted from 1, after
    /// the lines of which this is kept. `read` is the line, if it has the form of one. The note says what
    /// [`line_note`](crate::line_note) says of a mark, but of a node only the last entry that it released or withdrew
    /// on a name is known. Of any other line it says `other`.
    ///
    /// # Errors
    ///
    /// `Memory`: memory ran out.
    pub fn line_note(
        &self,
        line: u64,
        read: &Option<Line>,
        cause: MarkCause,
        other: &str,
    ) -> Result<Option<String>, Memory> {
        let mut note = Note::new(self.alloc);
        push_numbered(&mut note, "line ", line);
        let Some(Line::Marked(mark)) = read else {
            note.push(": ");
            note.push(other);
            return note.finish();
        };
        let text = mark_line(self.alloc, mark)?;
        let bytes = text.as_str().strip_suffix("\n").unwrap_or("").as_bytes();
        note.push(", ");
        note.quoted(bytes);
        note.push(": ");
        let at = TextLine {
            number: line,
            before: b"",
            bytes,
            has_feed: true,
            is_after_end: false,
        };
        push_obstacle(
            self.alloc,
            &mut note,
            &at,
            &self.replay(mark),
            Some(cause),
            other,
        );
        note.finish()
    }

    /// Returns a note on what is left at the end of a mark log with these lines: how many requests wait and hold, who
    /// the first four are at each stage, and who is in the way of those that wait. Returns `None` if nothing is left.
    ///
    /// # Errors
    ///
    /// `Memory`: memory ran out.
    pub fn end_note(&self) -> Result<Option<String>, Memory> {
        let mut note = Note::new(self.alloc);
        if self.names.is_empty() {
            note.push("the log has no mark, so nothing was judged");
            return note.finish();
        }
        let mut open = OpenRequests::new(self.alloc);
        for marks in self.names.iter() {
            marks.add_open(&mut open);
        }
        open.is_whole = open.is_whole && self.is_whole;
        push_log_end(self.alloc, &mut note, &open);
        note.finish()
    }
}
