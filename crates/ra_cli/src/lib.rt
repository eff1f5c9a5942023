//! The program `ra`, except for its standard input and output.
#![tactic(auto)]

mod commands;
mod error;
mod input_line;
mod laws;
mod output;
mod refusal_lines;
mod remark;
mod serving;

pub use commands::answer_command::answer;
pub use commands::cluster_command::run_by_threads;
pub use error::{AnswerError, RunScriptError, SettleFault};
pub use laws::{orderly_scripts_are_finished, statuses_are_known};
pub use output::{CommandOutcome, UNFINISHED, refuse_arguments};
pub use ra_arguments::CommandFault;
pub use ra_book_text::BookFault;
pub use refusal_lines::CommandRefusal;
pub use remark::Remark;
pub use serving::{do_alone, serve};
