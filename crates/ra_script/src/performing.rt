pub mod find_run;
pub mod printed;

ghost use Rattle.std.specs.Prelude.{◌≡◌, ◌⊎◌, ℕ, List, All, MatchOption, ◌++◌, string_bytes, codes, IfOk, IfErr};
ghost use Rattle.ra_script.specs.declared.output_kind.OutputKind.{OutputKind};
ghost use Rattle.ra_schedule.specs.ChoicesText.{HasText, Lists};
ghost use Rattle.ra_script.specs.Performed.{PerformsScript};
ghost use Rattle.ra_script.specs.Printing.{PrintsRun, trace_kind};

use crate::laws::{choices_have_words_unless_messages_are_repeated, read_scripts_come_to_rest};
use crate::performing::printed::Printed;
use crate::script_reading::MAX_SCRIPT;
use crate::{OutputKind, PerformError, read_script};
use ra_schedule::{
    Choices, ChoicesError, Policy, Script, Shown, choices_text, drive, show, shrink, summarize,
};
use ra_text::{read_up_to, write_out};
use ra_trace::{trace_text, trace_text_with_sends};
use ra_world::{report_text, runs_are_determined};
use std::alloc::Global;
use std::io::{Read, Write};

/// The most turns that a run of a script may take.
pub const MAX_TURNS: u64 = 16_777_216;

/// Drives a cluster through a script by a policy, and returns the lines of its report.
///
/// # Errors
///
/// The first that holds, except that `Memory` may come before the other:
///
/// 1. `Drive`: the policy can't go on.
/// 2. `Memory`: memory ran out.
fn lines_of(alloc: Global, policy: &Policy, script: &Script) -> Result<Printed, PerformError>
    ensures { PrintsRun OutputKind.Lines policy.now script.now result }
{
    let summary = summarize(alloc, script, policy, MAX_TURNS)?;
    let lines = report_text(alloc, &summary.report);
    let finished = summary.finished;
    // By a call, and before any exit: dropping each of its parts at an exit takes long to prove.
    drop(summary);
    let text = lines?;
    Ok(Printed { text, finished })
}

/// Drives a cluster through a script by a policy, and returns the trace of its run, with the messages that each step
/// sends or without.
///
/// # Errors
///
/// The first that holds, except that `Memory` may come before the other:
///
/// 1. `Drive`: the policy can't go on.
/// 2. `Memory`: memory ran out.
fn trace_of(
    alloc: Global,
    policy: &Policy,
    script: &Script,
    has_sends: bool,
) -> Result<Printed, PerformError>
    ensures { PrintsRun (trace_kind has_sends) policy.now script.now result }
{
    // For the proof: the run whose trace is written is the one that was recorded, as both have these steps.
    runs_are_determined();
    let recording = drive(alloc, script, policy, MAX_TURNS)?;
    let nodes = script.nodes();
    let text = if has_sends {
        trace_text_with_sends(alloc, nodes, 0, &recording.steps)
    } else {
        trace_text(alloc, nodes, 0, &recording.steps)
    };
    let finished = recording.finished;
    // By a call, and before any exit: dropping each of its parts at an exit takes long to prove.
    drop(recording);
    match text {
        Ok(text) => Ok(Printed { text, finished }),
        // The steps are a run, so only `Memory` can come.
        Err(_) => Err(PerformError::Memory),
    }
}

/// Returns the line of choices: their words, and a line feed.
///
/// # Errors
///
/// Those of `choices_text`.
fn choices_line(alloc: Global, choices: &Choices) -> Result<String, ChoicesError>
    ensures ok { IfOk result
        (λ line. (text : List ℕ) × Lists text choices.now.items × (string_bytes line ≡ text ++ codes "\n")) }
    ensures err { IfErr result (λ fault. ((fault ≡ ChoicesError.Choice) × (All HasText choices.now.items → ⊥))
        ⊎ (fault ≡ ChoicesError.Memory)) }
{
    let mut text = choices_text(alloc, choices)?;
    match text.push_str("\n") {
        Ok(()) => Ok(text),
        Err(_) => Err(ChoicesError::Memory),
    }
}

/// Drives a cluster through a script by a policy, and returns the line of its choices, which make the run again.
///
/// # Errors
///
/// The first that holds, except that `Memory` may come before the others:
///
/// 1. `Drive`: the policy can't go on.
/// 2. `Choice`: a message is repeated, which no word can say.
/// 3. `Memory`: memory ran out.
fn choices_of(alloc: Global, policy: &Policy, script: &Script) -> Result<Printed, PerformError>
    ensures { PrintsRun OutputKind.Choices policy.now script.now result }
{
    // For the proof: choices lack a word only if the run repeats a message.
    choices_have_words_unless_messages_are_repeated();
    let recording = drive(alloc, script, policy, MAX_TURNS)?;
    let line = choices_line(alloc, &recording.choices);
    let finished = recording.finished;
    // By a call, and before any exit: dropping each of its parts at an exit takes long to prove.
    drop(recording);
    let text = line?;
    Ok(Printed { text, finished })
}

/// Returns the line of choices, or `none` and a line feed if there are none.
///
/// # Errors
///
/// Those of `choices_text`.
fn line_or_none(alloc: Global, choices: &Option<Choices>) -> Result<String, ChoicesError>
    ensures ok { IfOk result (λ line. MatchOption choices.now (string_bytes line ≡ codes "none\n")
        (λ list. (text : List ℕ) × Lists text list.items × (string_bytes line ≡ text ++ codes "\n"))) }
    ensures err { IfErr result (λ fault. ((fault ≡ ChoicesError.Choice)
        × MatchOption choices.now ⊥ (λ list. All HasText list.items → ⊥)) ⊎ (fault ≡ ChoicesError.Memory)) }
{
    match choices {
        Some(choices) => choices_line(alloc, choices),
        None => match String::from_str(alloc, "none\n") {
            Ok(text) => Ok(text),
            Err(_) => Err(ChoicesError::Memory),
        },
    }
}

/// Drives a cluster through a script by a policy, and returns the line of the choices that the run is shrunk to if it
/// is stuck, or a line that says that it is not.
///
/// # Errors
///
/// The first that holds, except that `Memory` may come before the others:
///
/// 1. `Drive`: the policy can't go on.
/// 2. `Choice`: the run is stuck, and what it is shrunk to repeats a message, which no word can say.
/// 3. `Memory`: memory ran out.
fn shrunk_of(alloc: Global, policy: &Policy, script: &Script) -> Result<Printed, PerformError>
    ensures { PrintsRun OutputKind.Shrunk policy.now script.now result }
{
    // For the proof: choices lack a word only if the run repeats a message.
    choices_have_words_unless_messages_are_repeated();
    let shrunk = shrink(alloc, script, policy, MAX_TURNS)?;
    let line = line_or_none(alloc, &shrunk.choices);
    let finished = shrunk.finished;
    // By a call, and before any exit: dropping each of its parts at an exit takes long to prove.
    drop(shrunk);
    let text = line?;
    Ok(Printed { text, finished })
}

/// Drives a cluster through a script by a policy, and returns the lines of the state at the end of its run.
///
/// # Errors
///
/// The first that holds, except that `Memory` may come before the other:
///
/// 1. `Drive`: the policy can't go on.
/// 2. `Memory`: memory ran out.
fn state_of(alloc: Global, policy: &Policy, script: &Script) -> Result<Printed, PerformError>
    ensures { PrintsRun OutputKind.State policy.now script.now result }
{
    let Shown { text, finished } = show(alloc, script, policy, MAX_TURNS)?;
    Ok(Printed { text, finished })
}

/// Drives a cluster through a script by a policy, and returns what is written of the run in a format.
///
/// # Errors
///
/// The first that holds, except that `Memory` may come before the others:
///
/// 1. `Drive`: the policy can't go on.
/// 2. `Choice`: choices are to be written, and one of them repeats a message, which no word can say.
/// 3. `Memory`: memory ran out.
pub fn print_run(
    alloc: Global,
    format: OutputKind,
    policy: &Policy,
    script: &Script,
) -> Result<Printed, PerformError>
    ensures { PrintsRun format policy.now script.now result }
{
    match format {
        OutputKind::Lines => lines_of(alloc, policy, script),
        OutputKind::Trace => trace_of(alloc, policy, script, false),
        OutputKind::TraceWithSends => trace_of(alloc, policy, script, true),
        OutputKind::Choices => choices_of(alloc, policy, script),
        OutputKind::Shrunk => shrunk_of(alloc, policy, script),
        OutputKind::State => state_of(alloc, policy, script),
    }
}

/// Does as [`perform`], and writes the run in a format:
///
/// - `Lines`: the lines of the report, as [`perform`] does.
/// - `Trace`: the trace, as [`perform_trace`] does, at its cost.
/// - `TraceWithSends`: the trace with the messages that each step sends, at that cost.
/// - `Choices`: the policy's choices, in their words on one line. So `--policy listed --choices` with these words makes
///   the same run again, whatever policy made it first. It costs about what `perform` does, plus time and memory linear
///   in the number of turns.
/// - `Shrunk`: if the run is stuck, the choices to which [`ra_schedule::shrink`] shrinks it, on one line, and otherwise
///   the word `none`. For a run of n turns, at most n(n + 1) / 2 further runs are made, each of at most n turns. It
///   takes memory linear in n.
/// - `State`: the lines of the state at the end, at the cost of [`ra_schedule::show`]. It keeps the steps, in memory
///   linear in the number of turns.
///
/// # Errors
///
/// The first that holds, except that `Memory` may come before any:
///
/// 1. `Read`: the reader failed, before its end and before it gave 65,537 bytes.
/// 2. `Script`: the input is no script.
/// 3. `Drive`: a choice is left after the last turn, or can't be made.
/// 4. `Choice`: choices are to be written, and one of them repeats a message, which no word can say.
/// 5. `Memory`: memory ran out.
/// 6. `Write`: the writer failed or took nothing, with bytes left to write. A prefix of the text was written.
///
/// After each of the others the writer is as before.
pub fn perform_as<R: Read, W: Write>(
    alloc: Global,
    reader: &mut R,
    writer: &mut W,
    format: OutputKind,
    policy: &Policy,
) -> Result<bool, PerformError>
    ensures { PerformsScript format policy.now (R.remaining reader.old) (R.remaining reader.new)
        (W.contents writer.old) (W.contents writer.new) (writer.new ≡ writer.old) result }
{
    // For the proof: without repeats no script comes to the limit of turns, and a policy that chooses by itself is not
    // refused.
    read_scripts_come_to_rest();
    let input = read_up_to(alloc, reader, MAX_SCRIPT + 1)?;
    let read = read_script(alloc, &input);
    // Before any exit, as the script below, so that neither is to be dropped at each.
    drop(input);
    let script = read?;
    let made = print_run(alloc, format, policy, &script);
    drop(script);
    let printed = made?;
    write_out(writer, printed.text.as_bytes())?;
    Ok(printed.finished)
}

/// Reads the text of a script, drives a cluster through it by a policy, in at most 16,777,216 turns, and writes the
/// lines of the report. Returns whether the run is finished: every operation is done, and nothing waits, is queued or
/// under way. It takes at most 65,537 bytes from the reader, and no read or write that failed is tried again.
///
/// # Errors
///
/// The first that holds, except that `Memory` may come before any:
///
/// 1. `Read`: the reader failed, before its end and before it gave 65,537 bytes.
/// 2. `Script`: the input is no script.
/// 3. `Drive`: a choice is left after the last turn, or can't be made.
/// 4. `Memory`: memory ran out.
/// 5. `Write`: the writer failed or took nothing, with bytes left to write. A prefix of the text was written.
///
/// After each of the others the writer is as before.
pub fn perform<R: Read, W: Write>(
    alloc: Global,
    reader: &mut R,
    writer: &mut W,
    policy: &Policy,
) -> Result<bool, PerformError>
    ensures { PerformsScript OutputKind.Lines policy.now (R.remaining reader.old) (R.remaining reader.new)
        (W.contents writer.old) (W.contents writer.new) (writer.new ≡ writer.old) result }
{
    perform_as(alloc, reader, writer, OutputKind::Lines, policy)
}

/// Does as [`perform`], and writes the trace of the run in place of the lines of its report. It keeps the steps, and
/// makes them a second time for their marks, so that it costs about twice as much, plus time and memory linear in the
/// trace.
///
/// # Errors
///
/// The first that holds, except that `Memory` may come before any:
///
/// 1. `Read`: the reader failed, before its end and before it gave 65,537 bytes.
/// 2. `Script`: the input is no script.
/// 3. `Drive`: a choice is left after the last turn, or can't be made.
/// 4. `Memory`: memory ran out.
/// 5. `Write`: the writer failed or took nothing, with bytes left to write. A prefix of the trace was written.
///
/// After each of the others the writer is as before.
pub fn perform_trace<R: Read, W: Write>(
    alloc: Global,
    reader: &mut R,
    writer: &mut W,
    policy: &Policy,
) -> Result<bool, PerformError>
    ensures { PerformsScript OutputKind.Trace policy.now (R.remaining reader.old) (R.remaining reader.new)
        (W.contents writer.old) (W.contents writer.new) (writer.new ≡ writer.old) result }
{
    perform_as(alloc, reader, writer, OutputKind::Trace, policy)
}
