//! The lines of a check that tells each wrong line of a mark log.
ghost use Rattle.std.specs.Prelude.{◌≡◌, flat_map, string_bytes, IfOk};
ghost use Rattle.ra_text.specs.Drafting.{Adds};
ghost use Rattle.ra_cli.specs.WrongLineChecks as spec;

use crate::commands::verdict_lines::valid_text;
use ra_json::mark_cause_word;
use ra_stamp::Memory;
use ra_text::Draft;
use ra_trace::{MarkCause, MarksSoFar, WrongLine, WrongLines};
use std::alloc::Global;

/// Adds the line of a wrong line.
fn push_wrong_line(text: &mut Draft, wrong: &WrongLine)
    ensures { Adds text.old (spec.wrong_line wrong.now) text.new }
{
    text.push("invalid");
    text.push_number(wrong.line);
    text.push_field(mark_cause_word(wrong.cause));
    text.end_line();
}

/// Adds the line of each of these wrong lines.
fn push_wrong_lines(text: &mut Draft, firsts: &[WrongLine])
    ensures { Adds text.old (flat_map spec.wrong_line firsts.now) text.new }
{
    for wrong in firsts {
        push_wrong_line(text, wrong);
    }
}

/// Adds the line of a cause, with how many lines are wrong for it, if any.
fn push_cause(text: &mut Draft, wrong: &WrongLines, cause: MarkCause)
    ensures { Adds text.old (spec.cause_line wrong.now cause) text.new }
{
    let count = wrong.count(cause);
    if count == 0 {
        return;
    }
    text.push_total_line(mark_cause_word(cause), u128::from(count));
}

/// Adds the line of each cause for which a line is wrong, in the order of the causes.
fn push_causes(text: &mut Draft, wrong: &WrongLines)
    ensures { Adds text.old (spec.cause_lines wrong.now) text.new }
{
    push_cause(text, wrong, MarkCause::Line);
    push_cause(text, wrong, MarkCause::NodeBusy);
    push_cause(text, wrong, MarkCause::NotAbove);
    push_cause(text, wrong, MarkCause::NotWaiting);
    push_cause(text, wrong, MarkCause::Held);
    push_cause(text, wrong, MarkCause::Earlier);
    push_cause(text, wrong, MarkCause::NotHeld);
}

/// Returns the lines of a check that found these wrong lines, and counted the requests and grants among the others.
///
/// # Errors
///
/// `Memory`: there is none for the text.
pub fn wrong_lines_text(
    alloc: Global,
    wrong: &WrongLines,
    counts: MarksSoFar,
) -> Result<String, Memory>
    ensures { IfOk result (λ text. string_bytes text ≡ spec.all_text wrong.now counts) }
{
    let requests = u128::from(counts.requests);
    let grants = u128::from(counts.grants);
    if wrong.firsts().is_empty() {
        return valid_text(alloc, requests, "grants", grants);
    }
    let mut text = Draft::new(alloc);
    push_wrong_lines(&mut text, wrong.firsts());
    push_causes(&mut text, wrong);
    text.push_total_line("requests", requests);
    text.push_total_line("grants", grants);
    text.finish()
}
