//! The objects of verdicts on traces and on mark logs.
ghost use Rattle.std.specs.Prelude.{◌≡◌, string_bytes, IfOk};
ghost use Rattle.serde_json.specs.View.{view};
ghost use Rattle.ra_trace.specs.declared.checker.verdict.Verdict.TheVariants as of_trace;
ghost use Rattle.ra_trace.specs.declared.mark_log.marks_verdict.MarksVerdict.TheVariants as of_log;
ghost use Rattle.ra_json.specs.Verdicts as spec;

use crate::objects::{count_value, line_of};
use ra_stamp::Memory;
use ra_trace::{Cause, MarkCause, MarksVerdict, Verdict};
use serde_json::{Value, json};
use std::alloc::{AllocError, Global};

/// Returns the word for the cause of an invalid trace. It does not allocate.
pub fn cause_word(cause: Cause) -> &'static str
    ensures { result.now ≡ spec.cause_word cause }
{
    match cause {
        Cause::Line => "Line",
        Cause::Refused => "Refused",
        Cause::NotUnderWay => "NotUnderWay",
        Cause::Sends => "Sends",
        Cause::Marks => "Marks",
        Cause::Table => "Table",
    }
}

/// Returns the word for the cause of an invalid mark log. It does not allocate.
pub fn mark_cause_word(cause: MarkCause) -> &'static str
    ensures { result.now ≡ spec.mark_cause_word cause }
{
    match cause {
        MarkCause::Line => "Line",
        MarkCause::NodeBusy => "NodeBusy",
        MarkCause::NotAbove => "NotAbove",
        MarkCause::NotWaiting => "NotWaiting",
        MarkCause::Held => "Held",
        MarkCause::Earlier => "Earlier",
        MarkCause::NotHeld => "NotHeld",
    }
}

/// Returns the object of a text that is invalid, with its first wrong line and the word for the cause.
///
/// # Errors
///
/// `AllocError`: memory ran out.
fn invalid_object(alloc: Global, line: u64, word: &str) -> Result<Value, AllocError>
    ensures { IfOk result (λ value. view value ≡ spec.invalid_object line word.now) }
{
    json!(in alloc; {"cause": word, "line": line, "verdict": "invalid"})
}

/// Returns the object of a trace of a run with so many requests and messages and, if it has to be complete, whether it
/// is.
///
/// # Errors
///
/// `AllocError`: memory ran out.
fn valid_trace_object(
    alloc: Global,
    complete: Option<bool>,
    requests: u128,
    messages: u128,
) -> Result<Value, AllocError>
    ensures { IfOk result (λ value. view value ≡ spec.verdict_object complete (of_trace.Valid requests messages)) }
{
    let requests = count_value(alloc, requests)?;
    let messages = count_value(alloc, messages)?;
    match complete {
        None => {
            json!(in alloc; {"messages": messages, "requests": requests, "verdict": "valid"})
        }
        Some(complete) => json!(in alloc; {
            "complete": complete,
            "messages": messages,
            "requests": requests,
            "verdict": "valid"
        }),
    }
}

/// Returns the object of a mark log with so many requests and grants and, if it has to be complete, whether it is.
///
/// # Errors
///
/// `AllocError`: memory ran out.
fn valid_log_object(
    alloc: Global,
    complete: Option<bool>,
    requests: u64,
    grants: u64,
) -> Result<Value, AllocError>
    ensures { IfOk result (λ value. view value ≡ spec.marks_verdict_object complete (of_log.Valid requests grants)) }
{
    match complete {
        None => json!(in alloc; {"grants": grants, "requests": requests, "verdict": "valid"}),
        Some(complete) => json!(in alloc; {
            "complete": complete,
            "grants": grants,
            "requests": requests,
            "verdict": "valid"
        }),
    }
}

/// Returns the object of a verdict on a trace, and if that has to be complete, whether it is.
///
/// # Errors
///
/// `AllocError`: memory ran out.
fn verdict_object(
    alloc: Global,
    complete: Option<bool>,
    verdict: &Verdict,
) -> Result<Value, AllocError>
    ensures { IfOk result (λ value. view value ≡ spec.verdict_object complete verdict.now) }
{
    match *verdict {
        Verdict::Valid { requests, messages } => {
            valid_trace_object(alloc, complete, requests, messages)
        }
        Verdict::Invalid { line, cause } => invalid_object(alloc, line, cause_word(cause)),
    }
}

/// Returns the object of a verdict on a mark log, and if that has to be complete, whether it is.
///
/// # Errors
///
/// `AllocError`: memory ran out.
fn marks_verdict_object(
    alloc: Global,
    complete: Option<bool>,
    verdict: &MarksVerdict,
) -> Result<Value, AllocError>
    ensures { IfOk result (λ value. view value ≡ spec.marks_verdict_object complete verdict.now) }
{
    match *verdict {
        MarksVerdict::Valid { requests, grants } => {
            valid_log_object(alloc, complete, requests, grants)
        }
        MarksVerdict::Invalid { line, cause } => {
            invalid_object(alloc, line, mark_cause_word(cause))
        }
    }
}

/// Returns the line of a text that is invalid, with its first wrong line and the word for the cause.
///
/// # Errors
///
/// `Memory`: memory ran out.
pub fn invalid_line(alloc: Global, line: u64, word: &str) -> Result<String, Memory>
    ensures { IfOk result (λ text. string_bytes text ≡ spec.invalid_line line word.now) }
{
    let object = invalid_object(alloc, line, word)?;
    line_of(alloc, &object)
}

/// Returns the line of a verdict on a trace: that it is one, how many requests and messages there are and, if it has to
/// be complete, whether it is; or its first wrong line and the cause.
///
/// # Errors
///
/// `Memory`: memory ran out.
pub fn verdict_line(
    alloc: Global,
    complete: Option<bool>,
    verdict: &Verdict,
) -> Result<String, Memory>
    ensures { IfOk result (λ text. string_bytes text ≡ spec.verdict_line complete verdict.now) }
{
    let object = verdict_object(alloc, complete, verdict)?;
    line_of(alloc, &object)
}

/// Returns the line of a verdict on a mark log: that it is one, how many requests and grants there are and, if it has to
/// be complete, whether it is; or its first wrong line and the cause.
///
/// # Errors
///
/// `Memory`: memory ran out.
pub fn marks_verdict_line(
    alloc: Global,
    complete: Option<bool>,
    verdict: &MarksVerdict,
) -> Result<String, Memory>
    ensures { IfOk result (λ text. string_bytes text ≡ spec.marks_verdict_line complete verdict.now) }
{
    let object = marks_verdict_object(alloc, complete, verdict)?;
    line_of(alloc, &object)
}
