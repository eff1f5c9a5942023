//! The lines of a survey.
ghost use Rattle.std.specs.Prelude.{◌≡◌, ◌++◌, codes, decimal, string_bytes, IfOk};
ghost use Rattle.ra_text.specs.Drafting.{Adds};
ghost use Rattle.ra_text.specs.Lines.{field};
ghost use Rattle.ra_cli.specs.Surveyed as spec;

use ra_arguments::Form;
use ra_json::survey_line;
use ra_schedule::{Spread, Survey, Tally};
use ra_stamp::Memory;
use ra_text::Draft;
use std::alloc::Global;

/// Adds a line of a word, a number, a text and another number.
fn push_row(text: &mut Draft, word: &str, first: u128, between: &str, second: u128)
    ensures { Adds text.old
        (word.now ++ field (decimal first) ++ between.now ++ field (decimal second) ++ codes "\n") text.new }
{
    text.push(word);
    text.push_number(first);
    text.push(between);
    text.push_number(second);
    text.end_line();
}

/// Adds the line of an end, if a seed came to it, with the first of the seeds that did.
fn push_tally(text: &mut Draft, word: &str, tally: Option<Tally>)
    ensures { Adds text.old (spec.tally_line word.now tally) text.new }
{
    if let Some(Tally { seeds, first }) = tally {
        push_row(text, word, seeds, " first", u128::from(first));
    }
}

/// Adds the line of a figure, if there is any.
fn push_spread(text: &mut Draft, word: &str, spread: Option<Spread>)
    ensures { Adds text.old (spec.spread_line word.now spread) text.new }
{
    if let Some(Spread { least, most }) = spread {
        push_row(text, word, least, "", most);
    }
}

/// Returns the lines of a survey. There is one for each end that came, with how many seeds came to it and the first of
/// them. Then there is one for each of two figures, the turns that were made and the messages that were sent, with its
/// least and its most.
///
/// # Errors
///
/// `Memory`: there is none for the text.
fn survey_text(alloc: Global, survey: &Survey) -> Result<String, Memory>
    ensures { IfOk result (λ text. string_bytes text ≡ spec.survey_text survey.now) }
{
    let mut text = Draft::new(alloc);
    push_tally(&mut text, "finished", survey.finished);
    push_tally(&mut text, "stuck", survey.stuck);
    push_tally(&mut text, "limit", survey.limit);
    push_spread(&mut text, "turns", survey.turns);
    push_spread(&mut text, "messages", survey.messages);
    text.finish()
}

/// Returns what is printed of a survey in this form: its lines, or the line of its object.
///
/// # Errors
///
/// `Memory`: there is none for the text.
pub fn survey_in(alloc: Global, form: Form, survey: &Survey) -> Result<String, Memory>
    ensures { IfOk result (λ text. string_bytes text ≡ spec.survey_in form survey.now) }
{
    match form {
        Form::Words => survey_text(alloc, survey),
        Form::Json => survey_line(alloc, survey),
    }
}
