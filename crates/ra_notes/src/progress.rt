//! What is said while a command takes long, and what is kept then for the note on its end.
use crate::note_texts::mark_cause_text;
use crate::notice::Notice;
use crate::seed_progress::SeedProgress;
use ra_arguments::{Command, Task};
use ra_explain::{KeptMarks, push_number_in};
use ra_schedule::{Observer, SeedOutcome};
use ra_stamp::{Mark, Memory};
use ra_trace::{Line, MarkCause, MarksSoFar, MarksWatcher, TraceSoFar, TraceWatcher};
use std::alloc::Global;
use std::io::Write;

/// What is kept of a text that is followed: not the text, but what is open in it.
#[derive(Drop)]
pub struct FollowedText {
    marks: KeptMarks,
    /// The wrong line, if it has the form of one.
    wrong: Option<Line>,
}

impl FollowedText {
    /// Returns what there is to say of the wrong line of a mark log. The cause alone is `said`.
    pub fn log_notice(&self, line: u64, cause: MarkCause, said: &'static str) -> Notice {
        match self.marks.line_note(line, &self.wrong, cause, said) {
            Ok(Some(text)) => Notice::Note(text),
            Ok(None) | Err(_) => Notice::Line { line, text: said },
        }
    }

    /// Returns what there is to say of the end of a mark log.
    pub fn log_end(&self) -> Result<Option<String>, Memory> {
        self.marks.end_note()
    }
}

/// Says how far a survey of many seeds is, or a text that is followed.
#[derive(Drop)]
pub struct Progress<'a, N> {
    seeds: SeedProgress<'a, N>,
    followed: FollowedText,
    /// Whether it tells wrong lines when they come.
    tells_wrong_lines: bool,
}

impl<'a, N: Write> Progress<'a, N> {
    /// Makes the progress of a command that has done nothing yet. It does not allocate.
    pub fn new(alloc: Global, asked: &Command<'_>, notes: &'a mut N) -> Progress<'a, N> {
        Progress {
            tells_wrong_lines: matches!(asked, Command::Task(Task::CheckAll { .. })),
            seeds: SeedProgress::new(alloc, notes),
            followed: FollowedText {
                marks: KeptMarks::new(alloc),
                wrong: None,
            },
        }
    }

    /// Returns the last seed that is done, if any.
    pub fn last_seed(&self) -> Option<u64> {
        self.seeds.last()
    }

    /// Returns what is kept of a text that was followed.
    pub fn into_followed(self) -> FollowedText {
        let Progress {
            seeds: _,
            followed,
            tells_wrong_lines: _,
        } = self;
        followed
    }

    /// Says how far a text is valid, by its requests and by what else is counted.
    fn say_so_far(&mut self, requests: u128, others: u128, other: &str) {
        let mut note = self.seeds.note();
        push_number_in(&mut note, "valid so far: ", requests, " requests, ");
        push_number_in(&mut note, "", others, other);
        self.seeds.say(note);
    }
}

impl<'a, N: Write> Observer for Progress<'a, N> {
    fn ended(&mut self, seed: u64, outcome: SeedOutcome) {
        self.seeds.ended(seed, outcome);
    }
}

impl<'a, N: Write> MarksWatcher for Progress<'a, N> {
    fn took(&mut self, line: u64, mark: &Mark) {
        self.followed.marks.take(line, mark);
    }

    fn refused(&mut self, line: u64, read: &Option<Line>, cause: MarkCause) {
        self.followed.wrong = *read;
        if self.tells_wrong_lines {
            let notice = self
                .followed
                .log_notice(line, cause, mark_cause_text(cause));
            self.seeds.tell(&notice);
        }
    }

    fn tell(&mut self, so_far: MarksSoFar) {
        let MarksSoFar {
            requests,
            grants,
            ..
        } = so_far;
        self.say_so_far(u128::from(requests), u128::from(grants), " grants");
    }
}

impl<'a, N: Write> TraceWatcher for Progress<'a, N> {
    fn took(&mut self, _number: u64, _line: &Line) {}

    fn refused(&mut self, _number: u64, _read: &Option<Line>) {}

    fn tell(&mut self, so_far: TraceSoFar) {
        self.say_so_far(so_far.requests, so_far.messages, " messages");
    }
}
