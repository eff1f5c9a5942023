//! The lines of a verdict.
ghost use Rattle.std.specs.Prelude.{◌≡◌, ◌++◌, codes, decimal, string_bytes, IfOk};
ghost use Rattle.ra_text.specs.Lines.{field, total_line};
ghost use Rattle.ra_cli.specs.Checks as spec;

use ra_arguments::Form;
use ra_json::{cause_word, verdict_line};
use ra_stamp::Memory;
use ra_text::Draft;
use ra_trace::Verdict;
use std::alloc::Global;

/// Returns the lines of a text that is valid: the number of its requests, and a second total with its word.
///
/// # Errors
///
/// `Memory`: there is none for the text.
pub fn valid_text(alloc: Global, requests: u128, word: &str, total: u128) -> Result<String, Memory>
    ensures { IfOk result (λ text. string_bytes text
        ≡ codes "valid\n" ++ total_line (codes "requests") requests ++ total_line word.now total) }
{
    let mut text = Draft::new(alloc);
    text.push("valid\nrequests");
    text.push_number(requests);
    text.end_line();
    text.push(word);
    text.push_number(total);
    text.end_line();
    text.finish()
}

/// Returns the line of a text that is invalid, with its first wrong line and the word for the cause.
///
/// # Errors
///
/// `Memory`: there is none for the text.
pub fn invalid_text(alloc: Global, line: u64, word: &str) -> Result<String, Memory>
    ensures { IfOk result (λ text. string_bytes text
        ≡ codes "invalid" ++ field (decimal line) ++ field word.now ++ codes "\n") }
{
    let mut text = Draft::new(alloc);
    text.push("invalid");
    text.push_number(line);
    text.push_field(word);
    text.end_line();
    text.finish()
}

/// Returns the lines of a verdict: that the text is a trace, and how many requests and messages there are, or that it
/// is not one, and its first wrong line and why.
///
/// # Errors
///
/// `Memory`: there is none for the text.
pub fn verdict_text(alloc: Global, verdict: &Verdict) -> Result<String, Memory>
    ensures { IfOk result (λ text. string_bytes text ≡ spec.verdict_text verdict.now) }
{
    match *verdict {
        Verdict::Valid { requests, messages } => valid_text(alloc, requests, "messages", messages),
        Verdict::Invalid { line, cause } => invalid_text(alloc, line, cause_word(cause)),
    }
}

/// Returns what is printed of a verdict in this form: its lines, or the line of its object.
///
/// # Errors
///
/// `Memory`: there is none for the text.
pub fn verdict_as(
    alloc: Global,
    form: Form,
    complete: Option<bool>,
    verdict: &Verdict,
) -> Result<String, Memory>
    ensures { IfOk result (λ text. string_bytes text ≡ spec.verdict_as form complete verdict.now) }
{
    match form {
        Form::Words => verdict_text(alloc, verdict),
        Form::Json => verdict_line(alloc, complete, verdict),
    }
}
