//! What the user reads while many seeds take long.
use crate::notice::{Notice, write_line};
use ra_explain::push_number_in;
use ra_schedule::{Observer, RunCost, SeedOutcome};
use ra_text::Note;
use std::alloc::Global;
use std::io::Write;

/// The work between two lines, in turns. It takes some seconds; there is no clock to measure them.
const WORK_OF_A_LINE: u64 = 1 << 23;

/// The work of a run besides its turns, in turns.
const WORK_OF_A_RUN: u64 = 16;

/// What is known about the seeds that are done.
#[derive(Drop)]
pub struct SeedProgress<'a, N> {
    alloc: Global,
    notes: &'a mut N,
    /// The work since the last line.
    work: u64,
    done: u64,
    finished: u64,
    /// The last seed that is done.
    last: Option<u64>,
}

impl<'a, N: Write> SeedProgress<'a, N> {
    /// Makes the progress of no seeds. It does not allocate.
    pub fn new(alloc: Global, notes: &'a mut N) -> SeedProgress<'a, N> {
        SeedProgress {
            alloc,
            notes,
            work: 0,
            done: 0,
            finished: 0,
            last: None,
        }
    }

    /// Returns the last seed that is done, if any.
    pub fn last(&self) -> Option<u64> {
        self.last
    }

    /// Makes a note that is empty so far. It does not allocate.
    pub fn note(&self) -> Note {
        Note::new(self.alloc)
    }

    /// Writes what there is to say while the command runs. A failure of the writer is ignored.
    pub fn tell(&mut self, notice: &Notice) {
        notice.write_early(self.notes);
    }

    /// Writes a note, but not if memory ran out for it. A failure of the writer is ignored.
    pub fn say(&mut self, note: Note) {
        if let Ok(Some(text)) = &note.finish() {
            write_line(self.notes, text.as_str());
        }
    }
}

impl<'a, N: Write> Observer for SeedProgress<'a, N> {
    fn ended(&mut self, seed: u64, outcome: SeedOutcome) {
        let turns = match outcome {
            SeedOutcome::Finished(RunCost { turns, .. }) => {
                self.finished = self.finished.saturating_add(1);
                turns
            }
            SeedOutcome::Stuck(RunCost { turns, .. }) => turns,
            SeedOutcome::Limit => WORK_OF_A_LINE,
        };
        self.last = Some(seed);
        self.done = self.done.saturating_add(1);
        self.work = self
            .work
            .saturating_add(turns)
            .saturating_add(WORK_OF_A_RUN);
        if self.work >= WORK_OF_A_LINE {
            self.work = 0;
            let mut note = self.note();
            note.number(self.done);
            push_number_in(&mut note, " seeds done, up to seed ", seed, ": ");
            note.number(self.finished);
            note.push(" finished");
            self.say(note);
        }
    }
}
