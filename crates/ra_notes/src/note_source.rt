//! What notes are made of, besides the outcome of the command.
use crate::inputs::Inputs;
use crate::progress::FollowedText;
use ra_arguments::{Command, Task, UsageFault};

/// What notes are made of, besides the outcome of the command.
#[derive(Clone, Copy)]
pub struct NoteSource<'a> {
    /// The arguments of the command line, whose options notes quote.
    pub arguments: &'a [String],
    /// What they ask for.
    pub asked: &'a Command<'a>,
    /// Why they ask for nothing, if that is so.
    pub fault: Option<&'a UsageFault<'a>>,
    /// What was read, or `None` if there was no memory for it, or it was followed.
    pub seen: Option<&'a [u8]>,
    /// What `draw` and `settle` hand back: the text that they read.
    pub text: &'a [u8],
    /// What is kept of a text that was followed.
    pub followed: &'a FollowedText,
    /// What was read, by its files and lines.
    pub inputs: Inputs<'a>,
    /// The last seed of a survey that was tried.
    pub last_seed: Option<u64>,
}

/// The text that has the wrong line.
#[derive(Clone, Copy)]
pub enum JudgedText<'a> {
    /// It was checked. `None` if there was no memory to keep it.
    Checked(Option<&'a [u8]>),
    /// It was to be drawn.
    Drawn(&'a [u8]),
}

impl<'a> NoteSource<'a> {
    /// Returns the text that was checked or was to be drawn.
    pub fn judged_text(&self) -> JudgedText<'a> {
        match self.asked {
            Command::Task(Task::Draw { .. }) => JudgedText::Drawn(self.text),
            _ => JudgedText::Checked(self.seen),
        }
    }
}
