//! The lines of a verdict on a mark log.
ghost use Rattle.std.specs.Prelude.{◌≡◌, string_bytes, IfOk};
ghost use Rattle.ra_cli.specs.Checks as spec;

use crate::commands::verdict_lines::{invalid_text, valid_text};
use ra_arguments::Form;
use ra_json::{mark_cause_word, marks_verdict_line};
use ra_stamp::Memory;
use ra_trace::MarksVerdict;
use std::alloc::Global;

/// Returns the lines of a verdict on a mark log: that its marks are a run of the lock table, and how many requests and
/// grants there are, or its first wrong line and why.
///
/// # Errors
///
/// `Memory`: there is none for the text.
pub fn marks_verdict_text(alloc: Global, verdict: &MarksVerdict) -> Result<String, Memory>
    ensures { IfOk result (λ text. string_bytes text ≡ spec.marks_verdict_text verdict.now) }
{
    match *verdict {
        MarksVerdict::Valid { requests, grants } => {
            valid_text(alloc, u128::from(requests), "grants", u128::from(grants))
        }
        MarksVerdict::Invalid { line, cause } => invalid_text(alloc, line, mark_cause_word(cause)),
    }
}

/// Returns what is printed of a verdict on a mark log in this form: its lines, or the line of its object.
///
/// # Errors
///
/// `Memory`: there is none for the text.
pub fn marks_verdict_as(
    alloc: Global,
    form: Form,
    complete: Option<bool>,
    verdict: &MarksVerdict,
) -> Result<String, Memory>
    ensures { IfOk result (λ text. string_bytes text ≡ spec.marks_verdict_as form complete verdict.now) }
{
    match form {
        Form::Words => marks_verdict_text(alloc, verdict),
        Form::Json => marks_verdict_line(alloc, complete, verdict),
    }
}
