//! The note that tells the user how a command ended: one line, which begins with `ra: `.
//! It is made here, since `ra_notes` is proved beside `ra_cli` and does not know its refusals.
use ra_arguments::{Command, Task};
use ra_cli::{
    AnswerError, BookFault, CommandOutcome, CommandRefusal, Remark, RunScriptError, SettleFault,
    UNFINISHED,
};
use ra_notes::{
    BOOKS_TOO_LONG, FrameCause, LEFT_OUT, NO_BOOK, NO_MEMORY, NO_SEED_DONE, NO_WORD, NoteSource,
    Notice, SEEDS_LEFT, Unanswered, cluster_notice, frame_notice, log_notice, of_check, of_choices,
    of_command, of_drawing, of_end, perform_notice, range_note, script_notice, trace_notice,
    unfinished_notice, unsettled_notice, write_hints, write_shrunk_notes,
};
use ra_stamp::NodeId;
use std::alloc::Global;
use std::io::Write;

/// Writes the note on the outcome of a command, and another on a run that was shrunk. If nothing was refused, it adds a
/// line for each option that has no effect, and one for the seed that was found. It ignores a failure of the writer.
pub fn write_notes<N: Write>(
    alloc: Global,
    source: &NoteSource<'_>,
    outcome: &CommandOutcome,
    notes: &mut N,
) {
    match &outcome.remark {
        Some(Remark::Unfinished) if source.asked.shrinks() => {
            write_shrunk_notes(alloc, source, notes);
        }
        Some(remark) => notice_of(alloc, source, *remark).write(source, notes),
        None => {}
    }
    if outcome.ran_to_end() {
        let is_done = outcome.status != UNFINISHED;
        write_hints(alloc, source, is_done, notes);
    }
}

/// Returns what there is to say about a remark: what is known about its place in the input, and otherwise its cause.
fn notice_of(alloc: Global, source: &NoteSource<'_>, remark: Remark) -> Notice {
    match remark {
        Remark::Refused(refusal) => refusal_of(alloc, source, refusal),
        Remark::Unfinished => unfinished_notice(alloc, source),
        Remark::SomeUnfinished => Notice::Text(SEEDS_LEFT),
        Remark::NoneFinished => Notice::Text(NO_SEED_DONE),
        Remark::Ends {
            sent,
            is_incomplete,
        } => of_end(alloc, source, sent, is_incomplete),
        Remark::NoTrace { line, cause, due } => {
            trace_notice(alloc, source.judged_text(), line, cause, due)
        },
        Remark::LeftOut => Notice::Text(LEFT_OUT),
        Remark::NoLog { line, cause } => log_notice(alloc, source, line, cause),
        Remark::Unsettled { line, cause } => unsettled_notice(alloc, source.text, line, cause),
    }
}

/// Returns what there is to say about a refusal, nothing if the writer failed, since a refusal does not say how.
fn refusal_of(alloc: Global, source: &NoteSource<'_>, refusal: CommandRefusal) -> Notice {
    match (refusal, source.asked) {
        (CommandRefusal::Command(_), _) => of_command(alloc, source.arguments, source.fault),
        (CommandRefusal::Answer(why), Command::Task(Task::Answer { node, nodes })) => {
            of_answer(alloc, source, *node, *nodes, why)
        }
        (CommandRefusal::Choices(why), Command::Task(Task::Sim { choices, .. })) => {
            of_choices(alloc, choices, why)
        }
        // Other commands have no node and no choices that could be refused.
        (CommandRefusal::Answer(_) | CommandRefusal::Choices(_), _) => Notice::Nothing,
        (CommandRefusal::Perform(why), _) => perform_notice(alloc, source, why),
        (CommandRefusal::Check(why), _) => of_check(source, why),
        (CommandRefusal::Draw(why), _) => of_drawing(alloc, source, why),
        (CommandRefusal::Cluster(why) | CommandRefusal::Survey(why), _) => {
            of_script_run(alloc, source, why)
        }
        (CommandRefusal::Settle(why), _) => of_settling(why),
        (CommandRefusal::Node(why), _) => of_book(why),
    }
}

/// Returns what there is to say about a script that was not run, by threads or under many seeds.
fn of_script_run(alloc: Global, source: &NoteSource<'_>, why: RunScriptError) -> Notice {
    match why {
        RunScriptError::Read => Notice::Unread,
        RunScriptError::Script(_) => script_notice(alloc, source.seen),
        RunScriptError::Cluster(fault) => cluster_notice(alloc, source.seen, fault),
        RunScriptError::Choice => Notice::Text(NO_WORD),
        RunScriptError::Memory => Notice::Text(NO_MEMORY),
    }
}

/// Returns what there is to say about books that were not settled.
fn of_settling(why: SettleFault) -> Notice {
    match why {
        SettleFault::Read => Notice::Unread,
        SettleFault::Limit => Notice::Input(BOOKS_TOO_LONG),
        SettleFault::Memory => Notice::Text(NO_MEMORY),
    }
}

/// Returns what there is to say about a book that was not answered.
fn of_book(why: BookFault) -> Notice {
    match why {
        BookFault::Line => Notice::Line {
            line: 1,
            text: NO_BOOK,
        },
        BookFault::Read => Notice::Unread,
        BookFault::Write => Notice::Nothing,
    }
}

/// Returns what there is to say about a frame that this one of `nodes` nodes does not answer.
fn of_answer(
    alloc: Global,
    source: &NoteSource<'_>,
    node: u16,
    nodes: u16,
    why: AnswerError,
) -> Notice {
    let cause = match why {
        AnswerError::BadCount => return range_note(alloc, "--nodes", nodes, NodeId::MAX),
        AnswerError::BadNode => return range_note(alloc, "--node", node, nodes),
        AnswerError::Read => return Notice::Unread,
        AnswerError::Memory => return Notice::Text(NO_MEMORY),
        AnswerError::Write => return Notice::Nothing,
        AnswerError::Line | AnswerError::Hex => FrameCause::Digits,
        AnswerError::Frame(fault) => FrameCause::Frame(fault),
        AnswerError::WrongNode => FrameCause::Node(Unanswered::WrongNode),
        AnswerError::Stranger => FrameCause::Node(Unanswered::Stranger),
        AnswerError::ClockFull => FrameCause::Node(Unanswered::ClockFull),
    };
    frame_notice(alloc, source.seen, node, nodes, cause)
}
