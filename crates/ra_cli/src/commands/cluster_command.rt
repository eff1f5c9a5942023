//! A script that threads run, from its text to what is printed of the run.
ghost use Rattle.std.specs.Prelude.{◌≡◌, ◌≢◌, List, ℕ, Ok, map, IfOk, IfErr, IfSome, string_bytes};
ghost use Rattle.std.specs.Io.KnownBytes.{Consumes};
ghost use Rattle.ra_world.specs.Run.{IsRun};
ghost use Rattle.ra_world.specs.Traffic.{Move};
ghost use Rattle.ra_script.specs.ScriptText.{script_of};
ghost use Rattle.ra_cli.specs.ClusterRun.{AreWrittenBooks, IsClusterRun, RefusesRun, SaysRun, SaysScript};
ghost use Rattle.ra_cli.specs.InputOutput.{ReadsInput};
ghost use Rattle.ra_cli.specs.Tasks.{Does};
ghost use Rattle.ra_arguments.specs.declared.command_line.Task.{Task};

use crate::commands::run_trace::trace_of_steps;
use crate::commands::script_input::script_from;
use crate::error::RunScriptError;
use crate::output::{ALL_DONE, CommandOutcome, print_text, refuse};
use crate::refusal_lines::CommandRefusal;
use ra_arguments::ClusterOutput;
use ra_book_text::push_book;
use ra_cluster::{Book, OpenGate, Recorded, record_cluster};
use ra_schedule::Script;
use ra_stamp::Memory;
use ra_world::{report_text, runs_are_determined};
use std::alloc::Global;
use std::io::{Read, Write};
use std::sync::Wait;
use std::thread::Threads;

/// Returns the text of books that threads recorded, one after the other.
///
/// # Errors
///
/// `Memory`: memory ran out.
fn books_text(alloc: Global, books: &[Book]) -> Result<String, Memory>
    ensures { IfOk result (λ text. AreWrittenBooks books.now (string_bytes text)) }
{
    let mut text = String::new(alloc);
    for book in books {
        // A book takes only frames that fit, so only `Memory` can come.
        let Ok(()) = push_book(&mut text, book) else {
            return Err(Memory);
        };
    }
    Ok(text)
}

/// Returns what is printed of what threads recorded at this many nodes.
///
/// # Errors
///
/// `Memory`: memory ran out.
fn recorded_text(
    alloc: Global,
    printed: ClusterOutput,
    nodes: u16,
    recorded: &Recorded,
) -> Result<String, Memory>
    ensures { IfOk result
        (λ text. (moves : List Move) → map (λ move. move.step) moves ≡ recorded.now.settled.steps.items
        → IsRun nodes 0 moves
        → SaysRun printed nodes recorded.now.books.items moves recorded.now.settled.report (string_bytes text)) }
{
    // For the proof: the run whose trace is written is the one that was settled, as both have these steps.
    runs_are_determined();
    match printed {
        ClusterOutput::Lines => report_text(alloc, &recorded.settled.report),
        ClusterOutput::Trace => trace_of_steps(alloc, nodes, 0, &recorded.settled.steps),
        ClusterOutput::Books => books_text(alloc, &recorded.books),
    }
}

/// Runs a script by threads, and returns what is printed of the one run that the nodes' books settle into. It waits for
/// the threads that it starts, and nothing bounds how long.
///
/// # Errors
///
/// `Cluster` and `Memory`, as [`record_cluster`] says.
fn text_of_run<T: Threads + Wait + Sync>(
    rt: &T,
    alloc: Global,
    printed: ClusterOutput,
    script: &Script,
) -> Result<String, RunScriptError>
    ensures ok { IfOk result (λ text. SaysScript printed script.now (string_bytes text)) }
    ensures err { IfErr result (λ why. (input : List ℕ) → script_of input ≡ Ok script.now → RefusesRun input why) }
    ensures read { IfErr result (λ why. why ≢ RunScriptError.Read) }
{
    let recorded = record_cluster(rt, alloc, script, &OpenGate)?;
    recorded_text(alloc, printed, script.nodes(), &recorded).or(Err(RunScriptError::Memory))
}

/// Reads the text of a script, runs it by threads, and returns what is printed of the one run that the nodes' books
/// settle into: the lines of its report, its trace, or these books. It takes at most 65,537 bytes from the reader, and
/// no read that failed is tried again. It waits for the threads that it starts, and nothing bounds how long.
///
/// # Errors
///
/// The first that holds, except that `Memory` may come before any:
///
/// 1. `Read`: the reader failed, before its end and before it gave 65,537 bytes.
/// 2. `Script`: the input is no script.
/// 3. `Cluster`: threads may not run the script, and no thread was started, or they did not bring it to its end.
/// 4. `Memory`: memory ran out.
pub fn run_script<T: Threads + Wait + Sync, R: Read>(
    rt: &T,
    alloc: Global,
    printed: ClusterOutput,
    reader: &mut R,
) -> Result<String, RunScriptError>
    // What is read is a script to its end, and the text shows its run.
    ensures ok { IfOk result (λ text. IfSome (R.remaining reader.old) (λ input.
        IsClusterRun printed input (string_bytes text)
        × Consumes (R.remaining reader.old) (R.remaining reader.new) input)) }
    // If the reader tells nothing of its input, this still holds of some input.
    ensures read { IfOk result (λ text. (input : List ℕ) × IsClusterRun printed input (string_bytes text)) }
    ensures reads { ReadsInput RunScriptError.Read 65537 RefusesRun (R.remaining reader.old)
        (R.remaining reader.new) result }
{
    let script = script_from(alloc, reader)?;
    text_of_run(rt, alloc, printed, &script)
}

/// Does the command `cluster`: runs the script of the reader by threads, and prints what is asked of the run. It waits
/// for the threads that it starts.
pub fn run_by_threads<T: Threads + Wait + Sync, R: Read, W: Write>(
    rt: &T,
    alloc: Global,
    printed: ClusterOutput,
    reader: &mut R,
    writer: &mut W,
) -> CommandOutcome
    ensures { Does (Task.Cluster printed) (R.remaining reader.old) (R.remaining reader.new)
        (W.contents writer.old) (W.contents writer.new) result.status }
{
    match run_script(rt, alloc, printed, reader) {
        Ok(text) => print_text(writer, text.as_bytes(), ALL_DONE),
        Err(fault) => refuse(writer, CommandRefusal::Cluster(fault)),
    }
}
