//! What hosts and their clients say, and the lines of a host's process, as text. Each text is read and written exactly:
//! it is read as a value if and only if it is the text of that value.
#![tactic(auto)]

mod answer;
mod client_line;
mod fatal;
mod host_line;
mod host_message;
mod input_line;
mod laws;
mod nonce;
mod output_line;
mod status_line;
mod wait;

pub use answer::{Answer, Refusal};
pub use client_line::ClientLine;
pub use fatal::Fatal;
pub use host_line::HostLine;
pub use host_line::message_fault::MessageFault;
pub use host_message::{HostMessage, Unfit};
pub use input_line::InputLine;
pub use laws::{host_lines_are_read_in_one_way, lines_are_read_in_one_way};
pub use nonce::{nonce_of, push_nonce};
pub use output_line::{
    push_answer_line, push_client_line, push_close_line, push_fatal_line, push_note_line,
    push_peer_line, push_ready_line, push_status_line,
};
pub use status_line::StatusLine;
pub use wait::Wait;
