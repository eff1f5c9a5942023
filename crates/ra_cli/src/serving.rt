//! Each command is done by its own function.
ghost use Rattle.std.specs.Prelude.{◌≡◌, map, string_bytes};
ghost use Rattle.ra_arguments.specs.Helping.{helps_of};
ghost use Rattle.ra_cli.specs.Commands.{DoesCommand, NeedsNoThreads, ReadsNothing, Serves, TellsObserver};

use crate::commands::all_lines_command::judge_all_lines;
use crate::commands::answer_command::respond;
use crate::commands::check_command::{judge, judge_marks};
use crate::commands::cluster_command::run_by_threads;
use crate::commands::draw_command::draw_part;
use crate::commands::follow_command::follow_text;
use crate::commands::node_command::be_a_node;
use crate::commands::settle_command::settle_books;
use crate::commands::sim_command::simulate;
use crate::commands::survey_command::survey_seeds;
use crate::output::{ALL_DONE, CommandOutcome, print_text, refuse};
use crate::refusal_lines::CommandRefusal;
use ra_arguments::{
    ANSWER_HELP, CHECK_HELP, CLUSTER_HELP, Command, DRAW_HELP, NODE_HELP, SETTLE_HELP, SIM_HELP,
    STATUS_HELP, SUMMARY_HELP, Task, command_of,
};
use ra_schedule::Observer;
use ra_trace::{MarksWatcher, TraceWatcher};
use std::alloc::Global;
use std::io::{BufRead, Write};
use std::sync::Wait;
use std::thread::Threads;

/// Does a command other than `cluster`, which [`run_by_threads`] does, and returns its outcome. It starts no thread,
/// and waits only for the reader and the writer. The observer is told of each seed. Of a text that is followed, it is
/// shown each line, and told what the lines come to after each so many. A text to be drawn or settled is left in
/// `text`, unless that is refused.
pub fn do_alone<R: BufRead, W: Write, O: Observer + TraceWatcher + MarksWatcher>(
    alloc: Global,
    asked: &Command<'_>,
    reader: &mut R,
    writer: &mut W,
    text: &mut Vec<u8>,
    observer: &mut O,
) -> CommandOutcome
    requires { NeedsNoThreads asked.now }
    ensures does { DoesCommand asked.now (R.remaining reader.old) (R.remaining reader.new)
        (W.contents writer.old) (W.contents writer.new) result.status }
    ensures unread { ReadsNothing asked.now → reader.new ≡ reader.old }
    ensures told { TellsObserver asked.now (R.remaining reader.old)
        (O.TraceWatcher.told observer.old) (O.TraceWatcher.told observer.new)
        (O.MarksWatcher.told observer.old) (O.MarksWatcher.told observer.new) result.status }
{
    match *asked {
        Command::Node => be_a_node(alloc, reader, writer),
        Command::Settle(books) => settle_books(alloc, books, reader, writer, text),
        Command::Task(Task::Answer { node, nodes }) => respond(alloc, node, nodes, reader, writer),
        Command::Task(
            Task::Sim {
                policy,
                choices,
                format,
            },
        ) => simulate(alloc, policy, choices, format, reader, writer),
        Command::Task(Task::Survey(ref survey)) => {
            survey_seeds(alloc, survey, reader, writer, observer)
        }
        Command::Task(Task::Check { complete, form }) => {
            judge(alloc, complete, form, reader, writer)
        }
        Command::Task(Task::CheckMarks { complete, form }) => {
            judge_marks(alloc, complete, form, reader, writer)
        }
        Command::Task(
            Task::Follow {
                kind,
                every,
                complete,
                form,
            },
        ) => { follow_text(alloc, kind, every, complete, form, reader, writer, observer) }
        Command::Task(Task::CheckAll { complete }) => {
            judge_all_lines(alloc, complete, reader, writer, observer)
        }
        Command::Task(Task::Draw { kind, part }) => {
            draw_part(alloc, kind, part, reader, writer, text)
        }
        Command::Task(Task::Cluster(_)) => unreachable!(),
        Command::Task(Task::Help(ref help)) => print_text(writer, help.as_bytes(), ALL_DONE),
        Command::Unknown(fault) => refuse(writer, CommandRefusal::Command(fault)),
    }
}

/// Does what the arguments ask for, and returns the exit status (the first argument is the program's name):
///
/// - 0: done.
/// - 1: a fault of the input or the output.
/// - 2: refused.
/// - 3: a run that ended with something left to do, a trace or a log that is not one, or is not complete though it has
///   to be, or books that do not settle.
///
/// A refusal is printed as one line, `refused` and its word; `ra node` answers refused lines and goes on. No read or
/// write that failed is tried again, and after a fault of the output nothing more is written. It waits only for the
/// reader and the writer, and with the command `cluster` for the threads that it starts. The reader has a buffer for
/// the commands `check` and `node`, which take from it what they read.
pub fn serve<T: Threads + Wait + Sync, R: BufRead, W: Write>(
    rt: &T,
    alloc: Global,
    arguments: &[String],
    reader: &mut R,
    writer: &mut W,
) -> u8
    ensures { Serves
        (helps_of ANSWER_HELP.now SIM_HELP.now CLUSTER_HELP.now CHECK_HELP.now DRAW_HELP.now NODE_HELP.now
        SETTLE_HELP.now SUMMARY_HELP.now STATUS_HELP.now)
        (map string_bytes arguments.now) (R.remaining reader.old) (R.remaining reader.new)
        (W.contents writer.old) (W.contents writer.new) (reader.new ≡ reader.old) result }
{
    let asked = command_of(alloc, arguments);
    if let Command::Task(Task::Cluster(printed)) = asked {
        return run_by_threads(rt, alloc, printed, reader, writer).status;
    }
    let mut text = Vec::new(alloc);
    do_alone(alloc, &asked, reader, writer, &mut text, &mut ()).status
}
