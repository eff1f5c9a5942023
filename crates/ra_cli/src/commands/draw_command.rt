//! The command `draw`, for traces and for mark logs.
ghost use Rattle.std.specs.Prelude.{◌≡◌, Ok, IfOk, IfErr, MatchOption};
ghost use Rattle.ra_cli.specs.Pictures.{Attempts};
ghost use Rattle.ra_cli.specs.Tasks.{Does};
ghost use Rattle.ra_arguments.specs.declared.command_line.Task.{Task};
ghost use Rattle.ra_arguments.specs.declared.command_line.input_kind.InputKind.{InputKind};

use crate::commands::marks_verdict_lines::marks_verdict_text;
use crate::commands::verdict_lines::verdict_text;
use crate::output::{ALL_DONE, CommandOutcome, UNFINISHED, print_text, refuse};
use crate::refusal_lines::CommandRefusal;
use crate::remark::Remark;
use ra_arguments::InputKind;
use ra_draw::{DrawError, Part, draw, draw_marks};
use ra_stamp::Memory;
use ra_trace::{MarksVerdict, Verdict};
use std::alloc::Global;
use std::io::{Read, Write};

/// Why an input is not drawn.
#[derive(Drop)]
pub struct Denial {
    /// The line that is printed.
    pub line: String,
    /// What there is to say of it to a person.
    pub remark: Remark,
}

/// Makes a denial of its line, if there was memory for that.
///
/// # Errors
///
/// `Memory`: there was none.
fn denied(line: Result<String, Memory>, remark: Remark) -> Result<Option<Denial>, DrawError>
    ensures ok { IfOk result (λ denial. MatchOption denial ⊥ (λ denial. line ≡ Ok denial.line)) }
    ensures err { IfErr result (λ fault. fault ≡ DrawError.Memory) }
{
    match line {
        Ok(line) => Ok(Some(Denial { line, remark })),
        Err(_) => Err(DrawError::Memory),
    }
}

/// Draws a part of the reader's trace, or says why its text is not a trace. What was read is left in `text`.
///
/// # Errors
///
/// Those of `draw`.
fn draw_trace<R: Read, W: Write>(
    alloc: Global,
    part: Part,
    reader: &mut R,
    writer: &mut W,
    text: &mut Vec<u8>,
) -> Result<Option<Denial>, DrawError>
    ensures { Attempts InputKind.Trace part (R.remaining reader.old) (R.remaining reader.new)
        (W.contents writer.old) (W.contents writer.new) (writer.new ≡ writer.old) result }
{
    match draw(alloc, reader, writer, part, text) {
        Ok(Verdict::Valid { .. }) => Ok(None),
        Ok(Verdict::Invalid { line, cause }) => denied(
            verdict_text(alloc, &Verdict::Invalid { line, cause }),
            Remark::NoTrace {
                line,
                cause,
                due: None,
            },
        ),
        Err(fault) => Err(fault),
    }
}

/// Draws a part of the reader's mark log, or says why its text is not a mark log. What was read is left in `text`.
///
/// # Errors
///
/// Those of `draw_marks`.
fn draw_log<R: Read, W: Write>(
    alloc: Global,
    part: Part,
    reader: &mut R,
    writer: &mut W,
    text: &mut Vec<u8>,
) -> Result<Option<Denial>, DrawError>
    ensures { Attempts InputKind.Marks part (R.remaining reader.old) (R.remaining reader.new)
        (W.contents writer.old) (W.contents writer.new) (writer.new ≡ writer.old) result }
{
    match draw_marks(alloc, reader, writer, part, text) {
        Ok(MarksVerdict::Valid { .. }) => Ok(None),
        Ok(MarksVerdict::Invalid { line, cause }) => denied(
            marks_verdict_text(alloc, &MarksVerdict::Invalid { line, cause }),
            Remark::NoLog { line, cause },
        ),
        Err(fault) => Err(fault),
    }
}

/// Draws a part of the reader's input, or says why it is not of this kind and writes nothing. In both cases
/// the whole input is left in `text`.
///
/// # Errors
///
/// Those of `draw`, in their order. `Memory` may also come for the line of a denial. After each but `Write` the writer
/// is as before.
pub fn draw_input<R: Read, W: Write>(
    alloc: Global,
    kind: InputKind,
    part: Part,
    reader: &mut R,
    writer: &mut W,
    text: &mut Vec<u8>,
) -> Result<Option<Denial>, DrawError>
    ensures { Attempts kind part (R.remaining reader.old) (R.remaining reader.new)
        (W.contents writer.old) (W.contents writer.new) (writer.new ≡ writer.old) result }
{
    match kind {
        InputKind::Trace => draw_trace(alloc, part, reader, writer, text),
        InputKind::Marks => draw_log(alloc, part, reader, writer, text),
    }
}

/// Draws a part of the reader's input, or writes the line that says why it is not of this kind. In both cases the whole
/// input is left in `text`.
pub fn draw_part<R: Read, W: Write>(
    alloc: Global,
    kind: InputKind,
    part: Part,
    reader: &mut R,
    writer: &mut W,
    text: &mut Vec<u8>,
) -> CommandOutcome
    ensures { Does (Task.Draw kind part) (R.remaining reader.old) (R.remaining reader.new)
        (W.contents writer.old) (W.contents writer.new) result.status }
{
    match draw_input(alloc, kind, part, reader, writer, text) {
        Ok(None) => ALL_DONE,
        Ok(Some(denial)) => print_text(
            writer,
            denial.line.as_bytes(),
            CommandOutcome {
                status: UNFINISHED,
                remark: Some(denial.remark),
            },
        ),
        Err(fault) => refuse(writer, CommandRefusal::Draw(fault)),
    }
}
