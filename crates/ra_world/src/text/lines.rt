//! The lines of a report.
ghost use Rattle.std.specs.Prelude.{◌≡◌, string_bytes, IfOk};
ghost use Rattle.ra_world.specs.Lines as spec;

use crate::Report;
use ra_stamp::Memory;
use ra_text::Draft;
use std::alloc::Global;

/// Returns the lines of a report: one for each mark, in order, and then six totals, or seven with the number of
/// withdrawn requests if any was withdrawn. The cost is linear in the text.
///
/// # Errors
///
/// `Memory`: memory ran out.
pub fn report_text(alloc: Global, report: &Report) -> Result<String, Memory>
    ensures { IfOk result (λ text. string_bytes text ≡ spec.report_text report.now) }
{
    let mut text = Draft::new(alloc);
    let marks = report.marks.as_slice();
    for mark in marks {
        text.push_mark_line(mark);
    }
    text.push_total_line("requests", report.requests);
    text.push_total_line("messages", report.sent);
    text.push_total_line("under-way", report.under_way);
    text.push_total_line("lost", report.lost);
    text.push_total_line("waiting", report.waiting);
    text.push_total_line("queued", report.queued);
    if report.withdrawn != 0 {
        text.push_total_line("withdrawn", report.withdrawn);
    }
    text.finish()
}
