//! What a command waits for, as a user at a terminal reads it.
use crate::notice::write_line;
use ra_arguments::{Command, InputKind, Task};
use std::io::Write;

/// Tells the user at a terminal what the command waits for, and how it is given, if it reads something. It does not
/// allocate, and ignores a failure of the writer.
pub fn write_waiting_note<N: Write>(asked: &Command<'_>, notes: &mut N) {
    let text = match asked {
        Command::Node =>
            "reading a book from standard input: type its lines, and Ctrl-D at the end",
        Command::Settle(_) =>
            "reading books from standard input: name their files, as in ra settle FILE ..",
        Command::Task(Task::Answer { .. }) =>
            "reading a frame from standard input: type its digits and Enter, then Ctrl-D",
        Command::Task(Task::Sim { .. } | Task::Survey(_) | Task::Cluster(_)) =>
            "reading a script from standard input: type it and then Ctrl-D, or name a file",
        Command::Task(
            Task::Check { .. }
            | Task::Follow {
                kind: InputKind::Trace,
                ..
            }
            | Task::Draw {
                kind: InputKind::Trace,
                ..
            },
        ) => "reading a trace from standard input: type it and then Ctrl-D, or name a file",
        Command::Task(
            Task::CheckMarks { .. }
            | Task::CheckAll { .. }
            | Task::Follow {
                kind: InputKind::Marks,
                ..
            }
            | Task::Draw {
                kind: InputKind::Marks,
                ..
            },
        ) => "reading a mark log from standard input: type it and then Ctrl-D, or name a file",
        Command::Task(Task::Help(_)) | Command::Unknown(_) => return,
    };
    write_line(notes, text);
}
