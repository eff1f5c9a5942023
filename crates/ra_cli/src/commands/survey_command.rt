//! A script under many seeds, from its text to the lines of the survey.
ghost use Rattle.std.specs.Prelude.{◌≡◌, ◌↔◌, ◌⊎◌, List, ℕ, Ok, codes, string_bytes, true, false, IsTrue, IfOk, IfSome, IsErrOf};
ghost use Rattle.std.specs.Io.KnownBytes.{Consumes};
ghost use Rattle.ra_script.specs.Finding.{IsFirstUnwritten};
ghost use Rattle.ra_script.specs.ScriptText.{script_of};
ghost use Rattle.ra_cli.specs.InputOutput.{ReadsInput};
ghost use Rattle.ra_cli.specs.Surveyed.{AllFinished, FoundHasNoWords, IsFound, IsSurveyed, IsTold, RefusesSurvey};
ghost use Rattle.ra_cli.specs.Surveyed as spec;
ghost use Rattle.ra_cli.specs.Tasks.{Does};
ghost use Rattle.ra_arguments.specs.declared.command_line.Task.{Task};

use crate::commands::script_input::script_from;
use crate::commands::survey_text::survey_in;
use crate::error::RunScriptError;
use crate::output::{ALL_DONE, CommandOutcome, UNFINISHED, print_text, refuse};
use crate::refusal_lines::CommandRefusal;
use crate::remark::Remark;
use ra_arguments::{Search, SurveyTask};
use ra_schedule::{Chances, ChoicesError, Ending, Observer, Script, Survey, survey};
use ra_script::{MAX_TURNS, Printed, find_run};
use ra_stamp::Memory;
use std::alloc::Global;
use std::io::{Read, Write};

/// Returns whether each seed's run is finished. It does not allocate.
fn all_finished(survey: &Survey) -> bool
    ensures { IsTrue result ↔ AllFinished survey.now }
{
    survey.stuck.is_none() && survey.limit.is_none()
}

/// Drives a cluster through a script under each seed, and returns the lines of the survey, and whether each run is
/// finished.
///
/// # Errors
///
/// `Memory`: memory ran out.
fn counted_of<O: Observer>(
    alloc: Global,
    script: &Script,
    asked: &SurveyTask,
    observer: &mut O,
) -> Result<Printed, Memory>
    ensures { (input : List ℕ) → script_of input ≡ Ok script.now
        → IfOk result (λ told. IsSurveyed asked.now input (string_bytes told.text) told.finished) }
{
    let chances = Chances {
        seeds: asked.seeds,
        faults: asked.faults,
    };
    let counted = survey(alloc, script, &chances, MAX_TURNS, observer)?;
    let text = survey_in(alloc, asked.form, &counted)?;
    Ok(Printed {
        text,
        finished: all_finished(&counted),
    })
}

/// Returns what is to be printed of the run with the first seed that brings a script to the end that is looked for, and
/// whether that run is finished. If there is no such run, returns a line that says so, and whether that is as it should
/// be.
///
/// # Errors
///
/// The first that holds, except that `Memory` may come before the other:
///
/// 1. `Choice`: the choices are to be printed, and a message is repeated, which no word can say.
/// 2. `Memory`: memory ran out.
fn found_of<O: Observer>(
    alloc: Global,
    script: &Script,
    asked: &SurveyTask,
    search: Search,
    observer: &mut O,
) -> Result<Printed, ChoicesError>
    ensures ok { (input : List ℕ) → script_of input ≡ Ok script.now
        → IfOk result (λ told. IsFound asked.now search input (string_bytes told.text) told.finished) }
    ensures wordless { (input : List ℕ) → script_of input ≡ Ok script.now → IsErrOf result ChoicesError.Choice
        → IsFirstUnwritten search.format asked.now.faults search.ending asked.now.seeds.first asked.now.seeds.last
        input }
{
    let Search { ending, format } = search;
    let chances = Chances {
        seeds: asked.seeds,
        faults: asked.faults,
    };
    if let Some(found) = find_run(alloc, script, &chances, ending, format, observer)? {
        return Ok(found);
    }
    let Ok(text) = String::from_str(alloc, "none\n") else {
        return Err(ChoicesError::Memory);
    };
    Ok(Printed {
        text,
        finished: none_found_is_success(ending),
    })
}

/// Returns whether it is as it should be that no run came to an end. It does not allocate.
fn none_found_is_success(ending: Ending) -> bool
    ensures { result ≡ spec.none_found_is_success ending }
{
    matches!(ending, Ending::Stuck)
}

/// Returns what is printed of a script's runs under seeds.
///
/// # Errors
///
/// Those of `found_of`.
fn told_of<O: Observer>(
    alloc: Global,
    script: &Script,
    asked: &SurveyTask,
    observer: &mut O,
) -> Result<Printed, ChoicesError>
    ensures ok { (input : List ℕ) → script_of input ≡ Ok script.now
        → IfOk result (λ told. IsTold asked.now input (string_bytes told.text) told.finished) }
    ensures wordless { (input : List ℕ) → script_of input ≡ Ok script.now → IsErrOf result ChoicesError.Choice
        → FoundHasNoWords asked.now input }
{
    let Some(search) = asked.find else {
        let counted = counted_of(alloc, script, asked, observer)?;
        return Ok(counted);
    };
    found_of(alloc, script, asked, search, observer)
}

/// Reads the text of a script, and drives a cluster through it by chance, with faults or without, under each seed from
/// the first to the last, both of them included, each in at most 16,777,216 turns. Returns the lines of the survey, and
/// whether each run is finished. If an end is looked for, it goes up to the first seed whose run comes to it, and
/// returns that run's trace or choices, and whether it is finished. If there is no such run, it returns the line
/// `none`, and whether it is runs that are stuck that were looked for. The observer learns of each seed. It takes at
/// most 65,537 bytes from the reader, and no read that failed is tried again.
///
/// # Errors
///
/// The first that holds, except that `Memory` may come before any:
///
/// 1. `Read`: the reader failed, before its end and before it gave 65,537 bytes.
/// 2. `Script`: the input is no script.
/// 3. `Choice`: choices are to be printed, and a message is repeated, which no word can say.
/// 4. `Memory`: memory ran out.
pub fn survey_script<R: Read, O: Observer>(
    alloc: Global,
    asked: &SurveyTask,
    reader: &mut R,
    observer: &mut O,
) -> Result<Printed, RunScriptError>
    ensures ok { IfOk result (λ told. IfSome (R.remaining reader.old) (λ input.
        IsTold asked.now input (string_bytes told.text) told.finished
        × Consumes (R.remaining reader.old) (R.remaining reader.new) input)) }
    // If the reader tells nothing of its input, this still holds of some input.
    ensures read { IfOk result
        (λ told. (input : List ℕ) × IsTold asked.now input (string_bytes told.text) told.finished) }
    ensures reads { ReadsInput RunScriptError.Read 65537 (RefusesSurvey asked.now)
        (R.remaining reader.old) (R.remaining reader.new) result }
{
    let script = script_from(alloc, reader)?;
    let told = told_of(alloc, &script, asked, observer)?;
    Ok(told)
}

/// Returns the outcome of a survey, with status 3 if it is not finished. The remark then says that a run is stuck, if
/// that was looked for, that no run is finished, if that was, and otherwise that some run is not.
fn survey_outcome(finished: bool, find: Option<Search>) -> CommandOutcome
    ensures { ((result.status ≡ 0) × (finished ≡ true)) ⊎ ((result.status ≡ 3) × (finished ≡ false)) }
{
    if finished {
        return ALL_DONE;
    }
    let remark = match find {
        Some(
            Search {
                ending: Ending::Stuck,
                ..
            },
        ) => Remark::Unfinished,
        Some(_) => Remark::NoneFinished,
        None => Remark::SomeUnfinished,
    };
    CommandOutcome {
        status: UNFINISHED,
        remark: Some(remark),
    }
}

/// Drives a cluster through the script of the reader under each of many seeds, and prints the lines of the survey, or
/// what is asked of the first run that comes to the end that is looked for.
pub fn survey_seeds<R: Read, W: Write, O: Observer>(
    alloc: Global,
    asked: &SurveyTask,
    reader: &mut R,
    writer: &mut W,
    observer: &mut O,
) -> CommandOutcome
    ensures { Does (Task.Survey asked.now) (R.remaining reader.old) (R.remaining reader.new)
        (W.contents writer.old) (W.contents writer.new) result.status }
{
    match survey_script(alloc, asked, reader, observer) {
        Ok(told) => {
            let outcome = survey_outcome(told.finished, asked.find);
            print_text(writer, told.text.as_bytes(), outcome)
        }
        Err(fault) => refuse(writer, CommandRefusal::Survey(fault)),
    }
}
