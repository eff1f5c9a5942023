//! Explains to a person why an input was refused: the place of the cause, and what would be right there. No clause
//! covers the wording of an explanation.
#![tactic(auto)]

mod frame_notes;
mod hint;
mod note_parts;
mod trace_notes;

pub use frame_notes::frame_fault::{frame_note, push_frame_fault};
pub use frame_notes::hexadecimal::{digits_note, push_digits_fault};
pub use frame_notes::unanswered::{Unanswered, unanswered_note};
pub use note_parts::{NEXT_LINE, push_name_and_mode, push_number_in, push_numbered};
pub use trace_notes::awaited_replies::AwaitedReplies;
pub use trace_notes::blockers::{MAX_CLIENTS, TellsBlocker, push_blockers, want_text};
pub use trace_notes::deadlock::push_deadlock;
pub use trace_notes::kept_marks::KeptMarks;
pub use trace_notes::line_cause::{LineCause, line_note};
pub use trace_notes::open_request::{OpenRequest, Reached, Stage};
pub use trace_notes::open_requests::{OpenRequests, Sought};
pub use trace_notes::refused_step::{push_exhausted, push_stage, push_waits_not};
pub use trace_notes::sent_messages::watch_steps;
pub use trace_notes::text_end::end_note;
pub use trace_notes::withdrawals::{WithdrawalScope, has_cancels, withdrawals_note};
