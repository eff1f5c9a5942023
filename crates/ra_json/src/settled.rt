//! The objects of a settled run.
ghost use Rattle.std.specs.Prelude.{◌≡◌, flat_map, string_bytes, IfOk};
ghost use Rattle.ra_text.specs.Drafting.{Says};
ghost use Rattle.serde_json.specs.View.{view};
ghost use Rattle.ra_json.specs.Settled as spec;

use crate::objects::{count_value, line_of};
use ra_stamp::{Entry, Mark, Memory};
use ra_text::Draft;
use ra_world::Report;
use serde_json::{Value, json};
use std::alloc::{AllocError, Global};

/// Returns the object of what happened to an entry, by the word of its mark.
///
/// # Errors
///
/// `AllocError`: memory ran out.
fn entry_object(alloc: Global, word: &str, entry: &Entry) -> Result<Value, AllocError>
    ensures { IfOk result (λ value. view value ≡ spec.entry_object word.now entry.now) }
{
    let name = entry.name.as_str();
    let mode = entry.mode.word();
    let node = entry.stamp.node.get();
    json!(in alloc; {
        "client": entry.client,
        "mark": word,
        "mode": mode,
        "name": name,
        "node": node,
        "seq": entry.stamp.seq
    })
}

/// Returns the line of a mark.
///
/// # Errors
///
/// `Memory`: memory ran out.
fn mark_line(alloc: Global, mark: &Mark) -> Result<String, Memory>
    ensures { IfOk result (λ line. string_bytes line ≡ spec.mark_line mark.now) }
{
    let object = entry_object(alloc, mark.word(), mark.entry())?;
    line_of(alloc, &object)
}

/// Returns the object of the totals of a run.
///
/// # Errors
///
/// `AllocError`: memory ran out.
fn totals_object(alloc: Global, report: &Report) -> Result<Value, AllocError>
    ensures { IfOk result (λ value. view value ≡ spec.totals_object report.now) }
{
    let lost = count_value(alloc, report.lost)?;
    let messages = count_value(alloc, report.sent)?;
    let queued = count_value(alloc, report.queued)?;
    let requests = count_value(alloc, report.requests)?;
    let under_way = count_value(alloc, report.under_way)?;
    let waiting = count_value(alloc, report.waiting)?;
    let withdrawn = count_value(alloc, report.withdrawn)?;
    json!(in alloc; {
        "lost": lost,
        "messages": messages,
        "queued": queued,
        "requests": requests,
        "under_way": under_way,
        "verdict": "valid",
        "waiting": waiting,
        "withdrawn": withdrawn
    })
}

/// Returns the lines of the marks of a run, in order.
///
/// # Errors
///
/// `Memory`: memory ran out.
fn mark_lines(alloc: Global, marks: &[Mark]) -> Result<Draft, Memory>
    ensures { IfOk result (λ text. Says text (flat_map spec.mark_line marks.now)) }
{
    let mut text = Draft::new(alloc);
    for mark in marks {
        let line = mark_line(alloc, mark)?;
        text.push(line.as_str());
    }
    Ok(text)
}

/// Returns the lines of a report: one for each mark, in order, and then one for the totals. The cost is linear in the
/// text.
///
/// # Errors
///
/// `Memory`: memory ran out.
pub fn report_lines(alloc: Global, report: &Report) -> Result<String, Memory>
    ensures { IfOk result (λ text. string_bytes text ≡ spec.report_lines report.now) }
{
    let mut text = mark_lines(alloc, report.marks.as_slice())?;
    let object = totals_object(alloc, report)?;
    let line = line_of(alloc, &object)?;
    text.push(line.as_str());
    text.finish()
}
