//! What `ra` prints for programs: JSON objects, one a line. The text of each is that of a value of its definition.
#![tactic(auto)]

mod objects;
mod settled;
mod surveys;
mod verdicts;

pub use settled::report_lines;
pub use surveys::survey_line;
pub use verdicts::{cause_word, invalid_line, mark_cause_word, marks_verdict_line, verdict_line};
