//! The object of a survey of many seeds.
ghost use Rattle.std.specs.Prelude.{◌≡◌, string_bytes, IfOk};
ghost use Rattle.serde_json.specs.View.{view};
ghost use Rattle.ra_json.specs.Surveys as spec;

use crate::objects::{count_value, line_of};
use ra_schedule::{Spread, Survey, Tally};
use ra_stamp::Memory;
use serde_json::{Value, json};
use std::alloc::{AllocError, Global};

/// Returns how many seeds came to an end, and the first of them, or null if no seed did.
///
/// # Errors
///
/// `AllocError`: memory ran out.
fn tally_object(alloc: Global, tally: Option<Tally>) -> Result<Value, AllocError>
    ensures { IfOk result (λ value. view value ≡ spec.tally_object tally) }
{
    let Some(Tally { seeds, first }) = tally else {
        return Ok(Value::Null);
    };
    let seeds = count_value(alloc, seeds)?;
    json!(in alloc; {"first": first, "seeds": seeds})
}

/// Returns the least and the greatest value of a figure, or null if the figure does not exist.
///
/// # Errors
///
/// `AllocError`: memory ran out.
fn spread_object(alloc: Global, spread: Option<Spread>) -> Result<Value, AllocError>
    ensures { IfOk result (λ value. view value ≡ spec.spread_object spread) }
{
    let Some(Spread { least, most }) = spread else {
        return Ok(Value::Null);
    };
    let least = count_value(alloc, least)?;
    let most = count_value(alloc, most)?;
    json!(in alloc; {"least": least, "most": most})
}

/// Returns the object of a survey.
///
/// # Errors
///
/// `AllocError`: memory ran out.
fn survey_object(alloc: Global, survey: &Survey) -> Result<Value, AllocError>
    ensures { IfOk result (λ value. view value ≡ spec.survey_object survey.now) }
{
    let finished = tally_object(alloc, survey.finished)?;
    let limit = tally_object(alloc, survey.limit)?;
    let messages = spread_object(alloc, survey.messages)?;
    let stuck = tally_object(alloc, survey.stuck)?;
    let turns = spread_object(alloc, survey.turns)?;
    json!(in alloc; {
        "finished": finished,
        "limit": limit,
        "messages": messages,
        "stuck": stuck,
        "turns": turns
    })
}

/// Returns the line of a survey: for each of the three ends how many seeds came to it and the first of them, and for
/// each of two figures, the turns that were made and the messages that were sent, its least and its greatest value.
///
/// # Errors
///
/// `Memory`: memory ran out.
pub fn survey_line(alloc: Global, survey: &Survey) -> Result<String, Memory>
    ensures { IfOk result (λ text. string_bytes text ≡ spec.survey_line survey.now) }
{
    let object = survey_object(alloc, survey)?;
    line_of(alloc, &object)
}
