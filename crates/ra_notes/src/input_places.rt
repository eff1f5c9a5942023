//! What there is to say of the place in what was read that a note is about, and otherwise of the cause alone.
use crate::command_notes::of_performance;
use crate::note_source::{JudgedText, NoteSource};
use crate::note_texts::{
    EMPTY_TRACE, NO_BOOKS, UNEXPLAINED, cause_text, cluster_text, mark_cause_text, text_cause_text,
};
use crate::notice::Notice;
use crate::run_notes::unfinished::unfinished_note;
use crate::script_notes::choosing::choices_note;
use crate::script_notes::order_note::order_note;
use crate::script_notes::script_fault::script_note;
use crate::settle_notes::unsettled_note;
use ra_arguments::{Command, PolicyName, Task, policy_of};
use ra_book_text::TextCause;
use ra_cluster::ClusterError;
use ra_explain::{LineCause, Unanswered, digits_note, frame_note, line_note, unanswered_note};
use ra_frame::FrameError;
use ra_schedule::{Policy, chance};
use ra_script::PerformError;
use ra_stamp::Memory;
use ra_trace::{Cause, Line, MarkCause, check_buffered_with_due};
use std::alloc::Global;

/// What is said of a place, or nothing, if there is nothing to say or no memory for it: then the cause alone is named.
pub type PlaceNote = Result<Option<String>, Memory>;

/// Returns what is said of a place, or this if nothing is.
fn placed(place: PlaceNote, otherwise: Notice) -> Notice {
    match place {
        Ok(Some(text)) => Notice::Note(text),
        Ok(None) | Err(Memory) => otherwise,
    }
}

/// Returns what there is to say about a text that is no script: where it is wrong.
pub fn script_notice(alloc: Global, script: Option<&[u8]>) -> Notice {
    let place = match script {
        Some(script) => script_note(alloc, script),
        None => Ok(None),
    };
    placed(place, Notice::Text(UNEXPLAINED))
}

/// Returns what there is to say about a script that is not performed: where it is wrong, or which of the choices that
/// are listed is, and otherwise why.
pub fn perform_notice(alloc: Global, source: &NoteSource<'_>, why: PerformError) -> Notice {
    match (source.asked, source.seen, why) {
        (_, script, PerformError::Script(_)) => script_notice(alloc, script),
        (
            Command::Task(
                Task::Sim {
                    policy: PolicyName::Listed,
                    choices,
                    ..
                },
            ),
            Some(script),
            PerformError::Drive(_),
        ) => placed(choices_note(alloc, script, choices), of_performance(why)),
        _ => of_performance(why),
    }
}

/// Returns what there is to say about a script that threads may not run, or did not bring to its end: which lock is out
/// of order or is never given back, and otherwise why.
pub fn cluster_notice(alloc: Global, script: Option<&[u8]>, why: ClusterError) -> Notice {
    let place = match (script, why) {
        (Some(script), ClusterError::OutOfOrder | ClusterError::Unreleased) => {
            order_note(alloc, script)
        }
        _ => Ok(None),
    };
    placed(place, Notice::Text(cluster_text(why)))
}

/// Why a frame is not answered.
#[derive(Clone, Copy)]
pub enum FrameCause {
    /// The input is no line of hexadecimal digits.
    Digits,
    /// The bytes are no frame.
    Frame(FrameError),
    /// The node does not take it.
    Node(Unanswered),
}

/// Returns what there is to say about a frame that this one of `nodes` nodes does not answer.
pub fn frame_notice(
    alloc: Global,
    frame: Option<&[u8]>,
    node: u16,
    nodes: u16,
    why: FrameCause,
) -> Notice {
    let place = match (frame, why) {
        (Some(input), FrameCause::Digits) => digits_note(alloc, input),
        (Some(input), FrameCause::Frame(fault)) => frame_note(alloc, input, fault),
        (Some(input), FrameCause::Node(why)) => unanswered_note(alloc, input, node, nodes, why),
        (None, _) => Ok(None),
    };
    placed(place, Notice::Text(UNEXPLAINED))
}

/// Returns the policy that made a run, or with many seeds the policy with the last one that was tried, or `None` if
/// none was.
pub fn policy_by(alloc: Global, source: &NoteSource<'_>) -> Option<Policy> {
    let Command::Task(task) = source.asked else {
        return None;
    };
    match *task {
        Task::Sim {
            policy,
            choices,
            ..
        } => policy_of(alloc, policy, choices).ok(),
        Task::Survey(ref survey) => match source.last_seed {
            Some(seed) => Some(chance(survey.faults, seed)),
            None => None,
        },
        _ => None,
    }
}

/// Returns what there is to say about a run that ended with something left to do.
pub fn unfinished_notice(alloc: Global, source: &NoteSource<'_>) -> Notice {
    let place = match (source.seen, &policy_by(alloc, source)) {
        (Some(script), Some(policy)) => unfinished_note(alloc, script, policy),
        _ => Ok(None),
    };
    placed(place, Notice::Text(UNEXPLAINED))
}

/// Returns why a line of a trace is wrong, with the line of the send or mark that is due there. A text that was to be
/// drawn is checked again for that. If memory runs out for it, the line is not known. If the text was checked, `due` is
/// that line.
fn cause_in(alloc: Global, text: JudgedText<'_>, cause: Cause, due: Option<Line>) -> LineCause {
    match (cause, text) {
        (Cause::Sends | Cause::Marks, JudgedText::Checked(_)) => LineCause::Due(due),
        (Cause::Sends | Cause::Marks, JudgedText::Drawn(text)) => {
            let (mut rest, mut due) = (text, None);
            match check_buffered_with_due(alloc, &mut rest, &mut due) {
                Ok(_) => LineCause::Due(due),
                Err(_) => LineCause::Trace(cause),
            }
        }
        _ => LineCause::Trace(cause),
    }
}

/// Returns whether nothing was read.
fn is_empty(text: JudgedText<'_>) -> bool {
    match text {
        JudgedText::Checked(Some(text)) | JudgedText::Drawn(text) => text.is_empty(),
        JudgedText::Checked(None) => false,
    }
}

/// Returns what there is to say about the wrong line of a text. The cause alone is `said`.
fn line_notice(
    alloc: Global,
    text: JudgedText<'_>,
    line: u64,
    why: LineCause,
    said: &'static str,
) -> Notice {
    let place = match text {
        JudgedText::Checked(Some(text)) | JudgedText::Drawn(text) => {
            line_note(alloc, text, line, why, said)
        }
        JudgedText::Checked(None) => Ok(None),
    };
    placed(place, Notice::Line { line, text: said })
}

/// Returns what there is to say about a text that is not a trace, by its first wrong line. If the line is wrong for its
/// sends or its marks, `due` is the line that is due there, if one is; of a text that was to be drawn it is looked for.
pub fn trace_notice(
    alloc: Global,
    text: JudgedText<'_>,
    line: u64,
    cause: Cause,
    due: Option<Line>,
) -> Notice {
    if is_empty(text) {
        return Notice::Input(EMPTY_TRACE);
    }
    let why = cause_in(alloc, text, cause, due);
    line_notice(alloc, text, line, why, cause_text(cause))
}

/// Returns what there is to say about a text that is not a mark log, by its first wrong line.
pub fn log_notice(alloc: Global, source: &NoteSource<'_>, line: u64, cause: MarkCause) -> Notice {
    let said = mark_cause_text(cause);
    if let Command::Task(Task::Follow { .. }) = source.asked {
        return source.followed.log_notice(line, cause, said);
    }
    let why = LineCause::Marks(cause);
    line_notice(alloc, source.judged_text(), line, why, said)
}

/// Returns what there is to say about a text of books that does not settle, by its wrong line.
pub fn unsettled_notice(alloc: Global, books: &[u8], line: u64, cause: TextCause) -> Notice {
    if books.is_empty() {
        return Notice::Input(NO_BOOKS);
    }
    let text = text_cause_text(cause);
    placed(
        unsettled_note(alloc, books, line, cause),
        Notice::Line { line, text },
    )
}
