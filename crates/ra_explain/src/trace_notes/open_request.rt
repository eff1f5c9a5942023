//! A client that waits, is queued or holds, as a note says it.
use crate::note_parts::{push_name_and_mode, push_numbered};
use ra_stamp::{Entry, Mode, Name};
use ra_table::excludes;
use ra_text::Note;

/// What a client does between its ask and its release.
#[derive(Clone, Copy)]
pub enum Stage {
    /// Its request waits.
    Waits,
    /// It asked, and has no request yet.
    Queued,
    /// Its request was granted.
    Holds,
}

impl Stage {
    /// Returns whether it is this stage.
    pub fn is(self, stage: Stage) -> bool {
        self as u8 == stage as u8
    }

    /// Returns what a client at it has done with a name.
    pub fn done(self) -> &'static str {
        match self {
            Stage::Waits => " has waited for ",
            Stage::Queued => " has been queued for ",
            Stage::Holds => " has held ",
        }
    }
}

/// How far a client is with a name.
#[derive(Clone, Copy)]
pub struct Reached {
    pub stage: Stage,
    /// The mode that it asked for.
    pub mode: Mode,
    /// The line since which it is at this stage, counted from 1.
    pub since: u64,
}

/// A client that waits, is queued or holds, and its request.
#[derive(Clone, Copy)]
pub struct OpenRequest {
    /// If the client is queued it has no request yet, and the number in this one has no meaning.
    pub entry: Entry,
    pub stage: Stage,
    /// The line or the place of the mark since which it does so, counted from 1.
    pub since: u64,
}

impl OpenRequest {
    /// Returns whether it waits for a name or holds it.
    pub fn is_on(&self, name: &Name) -> bool {
        !self.stage.is(Stage::Queued) && self.entry.name == *name
    }

    /// Returns whether it keeps out an entry that waits: it excludes that one, and holds or is earlier.
    pub fn blocks(&self, entry: &Entry) -> bool {
        match self.stage {
            Stage::Queued => false,
            Stage::Waits => excludes(&self.entry, entry) && self.entry.stamp < entry.stamp,
            Stage::Holds => excludes(&self.entry, entry),
        }
    }

    /// Adds that it is in the way of another one, since it holds or came first.
    pub fn push_in_the_way(&self, note: &mut Note) {
        if self.stage.is(Stage::Holds) {
            push_entry(
                note,
                &self.entry,
                Stage::Holds.done(),
                " since line ",
                self.since,
            );
        } else {
            push_entry(note, &self.entry, " asked for ", " in line ", self.since);
        }
    }
}

/// Adds whose an entry is, what that client does with the name, and in or since which line.
pub fn push_entry(note: &mut Note, entry: &Entry, does: &str, place: &str, line: u64) {
    note.client(entry.client);
    push_numbered(note, " at node ", entry.stamp.node.get());
    push_name_and_mode(note, does, &entry.name, entry.mode);
    push_numbered(note, place, line);
}
