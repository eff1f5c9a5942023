ghost use Rattle.std.specs.Prelude.{◌≡◌, ◌≢◌, ◌+◌, ◌<◌, ◌^◌, ◌++◌, ℕ, List, [], length, take, slice_index_or, map, flat_map, decimal, string_bytes, codes, OnOk, IfOk, IfErr, IsErrOf, All};
ghost use Rattle.std.specs.Io.KnownBytes.{Appends};
ghost use Rattle.ra_world.specs.Traffic.{Move};
ghost use Rattle.ra_world.specs.Run.{GoesOn, WorldRun};
ghost use Rattle.ra_text.specs.Drafting.{Adds, Says};
ghost use Rattle.ra_text.specs.Lines.{field, mark_line, message_fields};
ghost use Rattle.ra_trace.specs.declared.line.version.Version.TheVariants.{ThreeWithSends};
ghost use Rattle.ra_trace.specs.Version.{TellsSends, version_word, first_end};
ghost use Rattle.ra_trace.specs.TraceText as spec;
ghost use Rattle.ra_trace.specs.TraceText.{IsTrace, IsTraceIn};
ghost use Rattle.ra_trace.specs.Ranges.{StepFits, MarkFits, MessageFits};
ghost use Rattle.ra_trace.specs.Refusals.{TellsRefusals};
ghost use Rattle.ra_trace.specs.Writing.{CanWrite, HasTraced, IsOpened, Traces, Written};

use crate::WriteTraceError;
use crate::line::field_ranges::{mark_fits, message_fits, step_fits};
use crate::line::version::Version;
use ra_stamp::{Marks, Message, Messages, Name, NodeId};
use ra_text::{Draft, write_out};
use ra_world::{
    MarklessWorld, NewError, RunError, Step, StepError, Steps, marks_of_runs_are_numbered,
};
use std::alloc::Global;
use std::io::Write;

/// What the first line of a trace tells: the version, how many nodes the run has, and at what number they begin.
#[derive(Clone, Copy)]
struct FirstLine {
    version: Version,
    nodes: u16,
    start: u64,
}

/// Adds a word, and the node, the client and the name of a client's step.
fn push_start(text: &mut Draft, word: &str, node: NodeId, client: u32, name: &Name)
    ensures { Adds text.old (word.now ++ field (decimal node) ++ field (decimal client) ++ field name.now) text.new }
{
    text.push(word);
    text.push_number(node.get());
    text.push_number(client);
    text.push_field(name.as_str());
}

/// Adds a word and the fields of a message.
fn push_sent(text: &mut Draft, word: &str, message: &Message)
    ensures { Adds text.old (word.now ++ message_fields message.now) text.new }
{
    text.push(word);
    text.push_message(message);
}

/// Adds the line of a step.
fn push_step(text: &mut Draft, step: &Step)
    ensures { Adds text.old (spec.step_line step.now) text.new }
{
    match step {
        Step::Ask {
            node,
            client,
            name,
            mode,
        } => {
            push_start(text, "ask", *node, *client, name);
            text.push_field(mode.word());
        }
        Step::Leave { node, client, name } => {
            push_start(text, "release", *node, *client, name);
        }
        Step::Cancel { node, client, name } => {
            push_start(text, "cancel", *node, *client, name);
        }
        Step::Forget { node } => {
            text.push("forget");
            text.push_number(node.get());
        }
        Step::Deliver(message) => push_sent(text, "deliver", message),
        Step::Lose(message) => push_sent(text, "lose", message),
        Step::Repeat(message) => push_sent(text, "repeat", message),
    }
    text.end_line();
}

/// Adds the lines of messages that a step sends.
fn push_sends(text: &mut Draft, messages: &Messages)
    ensures text { Adds text.old (flat_map spec.send_line messages.now.items) text.new }
    ensures fit { All MessageFits messages.now.items }
{
    for message in messages.as_slice() {
        // For the proof: the fields of a message are in their ranges.
        message_fits(message);
        push_sent(text, "send", message);
        text.end_line();
    }
}

/// Adds the lines of marks.
fn push_marks(text: &mut Draft, marks: &Marks)
    ensures text { Adds text.old (flat_map mark_line marks.now.items) text.new }
    ensures fit { All MarkFits marks.now.items }
{
    for mark in marks.as_slice() {
        // For the proof: the fields of a mark are in their ranges.
        mark_fits(mark);
        text.push_mark_line(mark);
    }
}

/// Adds the lines of a step, of what it sends if this version tells it, and of its marks.
fn push_move(text: &mut Draft, version: Version, step: &Step, sends: &Messages, marks: &Marks)
    ensures text { Adds text.old (spec.step_line step.now
        ++ flat_map spec.line_text (spec.sent_lines version sends.now.items)
        ++ flat_map mark_line marks.now.items) text.new }
    ensures fit { StepFits step.now × All MarkFits marks.now.items
        × (TellsSends version → All MessageFits sends.now.items) }
{
    // For the proof: the fields of a step are in their ranges.
    step_fits(step);
    push_step(text, step);
    if version.has_sends() {
        push_sends(text, sends);
    }
    push_marks(text, marks);
}

/// Makes the step of a run at this place, counted from 0, and adds its lines.
///
/// # Errors
///
/// `Run`: the step is refused. `Memory`.
fn trace_step(
    alloc: Global,
    text: &mut Draft,
    version: Version,
    world: &mut MarklessWorld,
    place: usize,
    step: &Step,
) -> Result<(), WriteTraceError>
    requires { place < 2 ^ 63 }
    ensures traced { (n start : ℕ) (steps : List Step) → place < length steps
        → step.now ≡ slice_index_or steps place step.now
        → HasTraced version n start (take place steps) world.old text.old
        → Traces version n start (take (place + 1) steps) steps world.new text.new result }
    // If the step is refused, that is the answer, and not that memory ran out.
    ensures memory { IsErrOf result WriteTraceError.Memory
        → GoesOn world.old.count world.old.start world.old.moves step.now }
{
    match world.step(alloc, step) {
        Ok(outcome) => {
            push_move(text, version, step, &outcome.sends, &outcome.marks);
            // By a call, and before any exit: dropping each of its parts at an exit takes long to prove.
            drop(outcome);
            if text.refused {
                Err(WriteTraceError::Memory)
            } else {
                Ok(())
            }
        }
        Err(cause) => {
            if let StepError::Memory = cause {
                return Err(WriteTraceError::Memory);
            }
            let place = place as u64 + 1;
            Err(WriteTraceError::Run(RunError::Refused { place, cause }))
        }
    }
}

/// Makes the steps of a run, and adds their lines.
///
/// # Errors
///
/// `Run`: a step is refused, the first such one. `Memory`.
fn trace_steps(
    alloc: Global,
    text: &mut Draft,
    version: Version,
    world: &mut MarklessWorld,
    steps: &Steps,
) -> Result<(), WriteTraceError>
    ensures traced { (n start : ℕ) → HasTraced version n start [] world.old text.old
        → Traces version n start steps.now.items steps.now.items world.new text.new result }
    // Memory ran out at one of the steps; up to it they are a run.
    ensures memory { (n start : ℕ) → HasTraced version n start [] world.old text.old
        → IsErrOf result WriteTraceError.Memory
        → (place : ℕ) × (place < length steps.now.items) × WorldRun n start (take (place + 1) steps.now.items) }
{
    for (place, step) in steps.as_slice().iter().enumerate() {
        match trace_step(alloc, text, version, world, place, step) {
            Ok(()) => {}
            Err(fault) => return Err(fault),
        }
    }
    Ok(())
}

/// Returns the words that begin the first line of a trace of this version.
fn first_words(version: Version) -> &'static str
    ensures { result.now ≡ codes "trace" ++ field (version_word version) }
{
    match version {
        Version::One => "trace 1",
        Version::Two => "trace 2",
        Version::Three | Version::ThreeWithSends => "trace 3",
    }
}

/// Returns how the first line of a trace of this version ends.
fn last_words(version: Version) -> &'static str
    ensures { result.now ≡ first_end version }
{
    match version {
        Version::One | Version::Two | Version::Three => "",
        Version::ThreeWithSends => " sends",
    }
}

/// Adds the first line of a trace.
fn push_first(text: &mut Draft, first: FirstLine)
    ensures { Adds text.old (codes "trace" ++ field (version_word first.version) ++ field (decimal first.nodes)
        ++ field (decimal first.start) ++ (first_end first.version ++ codes "\n")) text.new }
{
    text.push(first_words(first.version));
    text.push_number(first.nodes);
    text.push_number(first.start);
    text.push(last_words(first.version));
    text.end_line();
}

/// Adds the trace of a run with this first line, whose version has all of its steps, to an empty text. The world is the
/// one before its first step.
///
/// # Errors
///
/// `Run`: a step is refused, the first such one. `Memory`.
fn trace_run(
    alloc: Global,
    text: &mut Draft,
    first: FirstLine,
    world: &mut MarklessWorld,
    steps: &Steps,
) -> Result<(), WriteTraceError>
    requires { CanWrite first.version steps.now.items }
    ensures { Says text.old [] → IsOpened first.nodes first.start world.old
        → Written first.version first.nodes first.start steps.now.items text.new result }
{
    // For the proof: each mark of a run has a number.
    marks_of_runs_are_numbered();
    push_first(text, first);
    match trace_steps(alloc, text, first.version, world, steps) {
        Ok(()) => {}
        Err(fault) => return Err(fault),
    }
    text.push("end\n");
    Ok(())
}

/// Returns whether only version 3 has the step.
fn needs_third(step: &Step) -> bool
    ensures { result ≡ spec.needs_third step.now }
{
    match step {
        Step::Cancel { .. } | Step::Forget { .. } => true,
        Step::Ask { .. }
        | Step::Leave { .. }
        | Step::Deliver(_)
        | Step::Lose(_)
        | Step::Repeat(_) => false,
    }
}

/// Returns the version in which a run of these steps is written without sends.
fn plain_version(steps: &Steps) -> Version
    ensures version { result ≡ spec.plain_version steps.now.items }
    ensures can_write { CanWrite result steps.now.items }
{
    for step in steps.as_slice() {
        if needs_third(step) {
            return Version::Three;
        }
    }
    Version::Two
}

/// Makes a run as [`trace_text`] does, and returns its trace with this first line, whose version has all of its steps.
///
/// # Errors
///
/// Those of [`trace_text`].
fn text_in(alloc: Global, first: FirstLine, steps: &Steps) -> Result<String, WriteTraceError>
    requires { CanWrite first.version steps.now.items }
    ensures ok { IfOk result (λ text. (moves : List Move) × (map (λ move. move.step) moves ≡ steps.now.items)
        × IsTraceIn first.version first.nodes first.start moves (string_bytes text)) }
    ensures refusals { TellsRefusals first.nodes first.start steps.now.items result }
    ensures early { IfErr result (λ fault. fault ≢ WriteTraceError.Write) }
{
    let mut world = match MarklessWorld::new(alloc, first.nodes, first.start) {
        Ok(world) => world,
        Err(NewError::BadCount) => return Err(WriteTraceError::Run(RunError::BadCount)),
        Err(NewError::Memory) => return Err(WriteTraceError::Memory),
    };
    let mut text = Draft::new(alloc);
    let written = trace_run(alloc, &mut text, first, &mut world, steps);
    // By a call, and before any exit: dropping it at each exit takes longer to prove.
    drop(world);
    match written {
        Ok(()) => match text.finish() {
            Ok(text) => Ok(text),
            Err(_) => Err(WriteTraceError::Memory),
        },
        Err(fault) => Err(fault),
    }
}

/// Makes a run of this many nodes, with all numbers beginning at `start`, through a list of steps, and returns its
/// trace without sends. It is of version 2, or of version 3 if a step is a cancel or a forget. The cost is that of the
/// steps, each as `World::step` says, and linear in the text.
///
/// # Errors
///
/// The first that holds, except that `Memory` may come before the run gets to a step that is refused:
///
/// 1. `Run`: the number of nodes is not 1 to 64, or a step is refused, the first such one, with its place, counted from
///    1, and the cause. It is never that memory ran out.
/// 2. `Memory`: memory ran out.
///
/// Never `Write`, as nothing is written.
pub fn trace_text(
    alloc: Global,
    nodes: u16,
    start: u64,
    steps: &Steps,
) -> Result<String, WriteTraceError>
    ensures ok { IfOk result (λ text. (moves : List Move)
        × (map (λ move. move.step) moves ≡ steps.now.items) × IsTrace nodes start moves (string_bytes text)) }
    ensures refusals { TellsRefusals nodes start steps.now.items result }
    ensures early { IfErr result (λ fault. fault ≢ WriteTraceError.Write) }
{
    let version = plain_version(steps);
    let first = FirstLine {
        version,
        nodes,
        start,
    };
    text_in(alloc, first, steps)
}

/// Makes a run as [`trace_text`] does, and returns its trace with what is sent, in version 3.
///
/// # Errors
///
/// Those of [`trace_text`].
pub fn trace_text_with_sends(
    alloc: Global,
    nodes: u16,
    start: u64,
    steps: &Steps,
) -> Result<String, WriteTraceError>
    ensures ok { IfOk result (λ text. (moves : List Move)
        × (map (λ move. move.step) moves ≡ steps.now.items)
        × IsTraceIn ThreeWithSends nodes start moves (string_bytes text)) }
    ensures refusals { TellsRefusals nodes start steps.now.items result }
    ensures early { IfErr result (λ fault. fault ≢ WriteTraceError.Write) }
{
    let version = Version::ThreeWithSends;
    let first = FirstLine {
        version,
        nodes,
        start,
    };
    text_in(alloc, first, steps)
}

/// Writes the trace of a run, as [`trace_text`] gives it: the whole run is made first. No write that failed is tried
/// again. It has no limit of its own, so that the text may be longer than `check` takes.
///
/// # Errors
///
/// The first that holds, except that `Memory` may come before the run gets to a step that is refused:
///
/// 1. `Run`: the number of nodes is not 1 to 64, or a step is refused, the first such one, with its place, counted from
///    1, and the cause. It is never that memory ran out.
/// 2. `Memory`: memory ran out.
/// 3. `Write`: the writer failed or took nothing, with bytes left to write. A prefix of the text was written.
///
/// After the first two the writer is as before.
pub fn write_trace<W: Write>(
    alloc: Global,
    nodes: u16,
    start: u64,
    steps: &Steps,
    writer: &mut W,
) -> Result<(), WriteTraceError>
    // Exactly the trace of these steps is written.
    ensures ok { OnOk result ((moves : List Move) × (text : List ℕ)
        × (map (λ move. move.step) moves ≡ steps.now.items) × IsTrace nodes start moves text
        × Appends (W.contents writer.old) (W.contents writer.new) text) }
    ensures refusals { TellsRefusals nodes start steps.now.items result }
    ensures unwritten { IfErr result (λ fault. fault ≢ WriteTraceError.Write → writer.new ≡ writer.old) }
    // A fault of the writer comes only with something left to write.
    ensures prefix { IsErrOf result WriteTraceError.Write → (moves : List Move) × (prefix rest : List ℕ)
        × (map (λ move. move.step) moves ≡ steps.now.items) × IsTrace nodes start moves (prefix ++ rest) × (rest ≢ [])
        × Appends (W.contents writer.old) (W.contents writer.new) prefix }
{
    let text = trace_text(alloc, nodes, start, steps)?;
    match write_out(writer, text.as_bytes()) {
        Ok(()) => Ok(()),
        Err(_) => Err(WriteTraceError::Write),
    }
}

/// Writes the trace of a run with what is sent, as [`trace_text_with_sends`] gives it, and otherwise as [`write_trace`]
/// does.
///
/// # Errors
///
/// Those of [`write_trace`].
pub fn write_trace_with_sends<W: Write>(
    alloc: Global,
    nodes: u16,
    start: u64,
    steps: &Steps,
    writer: &mut W,
) -> Result<(), WriteTraceError>
    // Exactly the trace of these steps is written.
    ensures ok { OnOk result ((moves : List Move) × (text : List ℕ)
        × (map (λ move. move.step) moves ≡ steps.now.items) × IsTraceIn ThreeWithSends nodes start moves text
        × Appends (W.contents writer.old) (W.contents writer.new) text) }
    ensures refusals { TellsRefusals nodes start steps.now.items result }
    ensures unwritten { IfErr result (λ fault. fault ≢ WriteTraceError.Write → writer.new ≡ writer.old) }
    // A fault of the writer comes only with something left to write.
    ensures prefix { IsErrOf result WriteTraceError.Write → (moves : List Move) × (prefix rest : List ℕ)
        × (map (λ move. move.step) moves ≡ steps.now.items)
        × IsTraceIn ThreeWithSends nodes start moves (prefix ++ rest) × (rest ≢ [])
        × Appends (W.contents writer.old) (W.contents writer.new) prefix }
{
    let text = trace_text_with_sends(alloc, nodes, start, steps)?;
    match write_out(writer, text.as_bytes()) {
        Ok(()) => Ok(()),
        Err(_) => Err(WriteTraceError::Write),
    }
}
