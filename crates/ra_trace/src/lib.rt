//! Traces: a run of the cluster written down line by line, and a checker that tells of any text whether it is one. The
//! checker also takes logs of marks alone, so that any lock service is checked against the lock table.
#![tactic(auto)]

// Each line that is checked passes through these modules, so `let .. else` and `match`, which are cheaper to prove,
// replace `?`.
mod checker;
mod error;
mod laws;
mod line;
mod line_source;
mod mark_log;
mod marked_table;
mod text_limits;
mod trace_writing;

pub use checker::check_text::follow::{follow_trace, follow_trace_with_end};
pub use checker::check_text::{
    check, check_buffered, check_buffered_with_due, check_buffered_with_end, check_within,
};
pub use checker::trace_watcher::{TraceSoFar, TraceWatcher};
pub use checker::verdict::{Cause, Verdict};
pub use error::{TraceError, WriteTraceError};
pub use laws::{
    each_mark_log_has_one_verdict, each_text_has_one_verdict, texts_tell_their_steps,
    traces_tell_their_runs,
};
pub use line::Line;
pub use line::fields::{client_of, mode_of, name_of, node_of, seq_of, split_once, start_of};
pub use line::forms::{Change, Fate, Field, LineKind, rest_after};
pub use line::version::Version;
pub use mark_log::follow::{follow_marks, follow_marks_with_end};
pub use mark_log::left_out::check_all_marks;
pub use mark_log::marks_verdict::{MarkCause, MarksVerdict};
pub use mark_log::marks_watcher::{MarksSoFar, MarksWatcher};
pub use mark_log::wrong_lines::{WrongLine, WrongLines};
pub use mark_log::{
    check_marks, check_marks_buffered, check_marks_buffered_with_end, check_marks_within,
};
pub use marked_table::try_mark;
pub use text_limits::{MAX_FOLLOWED, MAX_LINE, MAX_TEXT};
pub use trace_writing::{trace_text, trace_text_with_sends, write_trace, write_trace_with_sends};
