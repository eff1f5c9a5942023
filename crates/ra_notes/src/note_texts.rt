//! The texts of notes that depend on neither the words nor what the input says.
use crate::notice::NO_MEMORY;
use ra_book_text::TextCause;
use ra_cluster::{ClusterError, Stop};
use ra_trace::{Cause, MarkCause};

/// What is said if an explanation finds no memory. It is also said if an explanation finds nothing, which it never
/// does.
pub const UNEXPLAINED: &str = "standard output says what came of it; no memory is left to say more";

/// What is said if the writer failed.
pub const NO_OUTPUT: &str = "cannot write to standard output";

/// What is said if the writer failed because no space is left.
pub const NO_SPACE: &str = "cannot write to standard output: no space left on device";

/// What is said if a word of the command line is not a text.
pub const NO_TEXT: &str = "a command-line argument is not valid UTF-8";

/// What is said if the choices of the run are to be printed, and a message is repeated.
pub const NO_WORD: &str = "the choices of this run cannot be written: one repeats a message";

/// What is said of a trace that was followed and had to be complete, and is not.
pub const LEFT_IN_TRACE: &str =
    "not complete: no request was made, or something waits, holds, is queued or under way at the end";

/// What is said of a mark log from which lines were left out.
pub const LEFT_OUT: &str =
    "each wrong line was left out, so the log went on as if it were not there";

/// What is said of an input that is too long for a trace or a mark log.
pub const TOO_MANY_BYTES: &str = "has more than 16777216 bytes";

/// What is said of an input that is too long for a mark log that was to be checked.
pub const LOG_TOO_LONG: &str =
    "has more than 16777216 bytes: split the log by its names, since each name is judged by its own marks";

/// What is said of an input that is too long for books.
pub const BOOKS_TOO_LONG: &str = "has more than 1073741824 bytes";

/// What is said of an input of which too many lines are to be drawn.
pub const TOO_LONG: &str = "has more than 4096 lines to draw: choose a part with --from and --to";

/// What is said of an input without a byte that has to be a trace.
pub const EMPTY_TRACE: &str = "is empty: expected a trace";

/// What is said of an input without a byte that has to be books.
pub const NO_BOOKS: &str = "is empty: expected one book of each node";

/// What is said of a line that has a carriage return before its line feed.
pub const HAS_RETURN: &str =
    "this line ends with a carriage return and a line feed, but each line must end with a line feed alone";

/// What is said of the first line of a book if it is not one.
pub const NO_BOOK: &str =
    "not the first line of a book: expected book 1 NODE NODES START, or book 2 in its place, with NODE 1 to NODES, NODES 1 to 64 and START 0 to 2^64 - 1, separated by single spaces and ended by a line feed alone";

/// What is said if a run goes on for too long.
pub const TOO_MANY_TURNS: &str =
    "the run is not over after 16777216 turns, the most that it may take";

/// What is said if the runs of some seeds did not finish.
pub const SEEDS_LEFT: &str =
    "the runs of some seeds did not finish: use --seed and --trace to see one of them";

/// What is said if a run that finishes was looked for, and no seed has one.
pub const NO_SEED_DONE: &str = "no run finished: use --seed and --trace to see one of them";

/// What is said if the threads of a cluster did what no script and no lack of memory or threads lets them do.
const DEFECT: &str = "the threads did not record one run of the whole script: this is a bug in ra";

/// Returns what is said about threads that did not bring a script to its end. For the two conditions that are checked
/// before threads start, the place in the script is explained.
pub fn cluster_text(fault: ClusterError) -> &'static str {
    match fault {
        ClusterError::OutOfOrder | ClusterError::Unreleased => UNEXPLAINED,
        // `run_cluster` does not tell which node was stopped. Memory and threads belong to the whole process, so it is
        // chance which node runs out of them first.
        ClusterError::Fault(stop) => match stop {
            // A node loses its inbox only after it was stopped or all clients are done, so a lack of memory is the
            // first cause.
            Stop::Memory | Stop::Send => "a node was stopped: out of memory",
            Stop::Spawn => {
                "a node was stopped: cannot start a thread (each node and each client needs one)"
            }
            Stop::Clock | Stop::Exhausted | Stop::Frame | Stop::Refused | Stop::Gate =>
                "a node was stopped in a way that no script can cause: this is a bug in ra",
        },
        ClusterError::Settle
        | ClusterError::PlanUnmet
        | ClusterError::Lost
        | ClusterError::UnderWay => DEFECT,
        ClusterError::Memory => NO_MEMORY,
    }
}

/// What is said about the first wrong line of a text that is not a trace, in the order of `Cause`.
const CAUSES: [&str; 6] = [
    "not a line that a trace may have here (see ra check --help); each line ends with a line feed alone, and the last line is end",
    "the step may not come here: the node does not exist, the client already waits, is queued or holds the name, it releases a name that it does not hold or cancels one for which it does not wait, or no number is left",
    "this message is not under way: it was never sent, or was already delivered or lost",
    "these are not the messages that the step sends: one is missing before this line, or this one does not belong here",
    "these are not the marks of the step: one is missing before this line, or this one does not belong here",
    "the lock table does not allow this mark: a conflicting request holds the name or came earlier, its own request does not wait or hold, its node already waits or holds, or its number is not above every number granted",
];

/// What is said about the first wrong line of a log that is not a run of the lock table, in the order of `MarkCause`.
const MARK_CAUSES: [&str; 7] = [
    "not a mark: expected request, enter, leave or withdraw and then NODE CLIENT NAME MODE SEQ, separated by single spaces and ended by a line feed alone",
    "the node of this request already waits for the name or holds it",
    "the number of this request is not above every number granted for the name",
    "no such request waits for the name",
    "a conflicting request holds the name",
    "an earlier request that conflicts waits for the name",
    "no such request holds the name",
];

/// What is said about the line at which a text of books is wrong, in the order of `TextCause`.
const TEXT_CAUSES: [&str; 5] = [
    "not a line of a book (see ra settle --help); each line ends with a line feed alone, and the text begins with the first line of a book",
    "a node has two books, or books name different numbers of nodes or starts, or the book of a node is missing: expected one book of each node, with one NODES and one START",
    "the node of this book does not take this event: give the book to ra node to see why",
    "its sender's book did not send this frame with this clock: expected one that ra node prints for that book",
    "this message came by an earlier line: expected each message once, unless --repeats is given",
];

/// Returns what is said about the first wrong line of a text that is not a trace.
pub fn cause_text(cause: Cause) -> &'static str {
    CAUSES[cause as usize]
}

/// Returns what is said about the first wrong line of a log that is not a run of the lock table.
pub fn mark_cause_text(cause: MarkCause) -> &'static str {
    MARK_CAUSES[cause as usize]
}

/// Returns what is said about the line at which a text of books is wrong.
pub fn text_cause_text(cause: TextCause) -> &'static str {
    TEXT_CAUSES[cause as usize]
}
