//! The notes that tell a person how a command ended, and the reader and the writer that remember what they need.
#![tactic(auto)]

mod book_openings;
mod command_notes;
mod given_options;
mod input_places;
mod inputs;
mod note_source;
mod note_texts;
mod notice;
mod progress;
mod recording_reader;
mod recording_writer;
mod refused_event;
mod refused_notes;
mod run_hints;
mod run_notes;
mod script_notes;
mod seed_progress;
mod settle_notes;
mod settled_notes;
mod unread_note;
mod unused_options;
mod usage_notes;
mod waiting_note;

pub use command_notes::{
    of_check, of_choices, of_command, of_drawing, of_end, range_note, write_arguments_note,
    write_output_note,
};
pub use input_places::{
    FrameCause, cluster_notice, frame_notice, log_notice, perform_notice, script_notice,
    trace_notice, unfinished_notice, unsettled_notice,
};
pub use inputs::Inputs;
pub use note_source::{JudgedText, NoteSource};
pub use note_texts::{BOOKS_TOO_LONG, LEFT_OUT, NO_BOOK, NO_SEED_DONE, NO_WORD, SEEDS_LEFT};
pub use notice::{NO_MEMORY, Notice, write_line};
pub use progress::{FollowedText, Progress};
pub use ra_explain::Unanswered;
pub use recording_reader::{RecordedInput, RecordingReader};
pub use recording_writer::{OutputFault, RecordingWriter};
pub use run_hints::write_hints;
pub use run_notes::shrunk_notes::write_shrunk_notes;
pub use run_notes::unfinished::unfinished_note;
pub use script_notes::choosing::choices_note;
pub use script_notes::order_note::order_note;
pub use script_notes::script_end::script_end_note;
pub use script_notes::script_fault::script_note;
pub use unused_options::write_unused_options;
pub use usage_notes::{is_choice, usage_note};
pub use waiting_note::write_waiting_note;
