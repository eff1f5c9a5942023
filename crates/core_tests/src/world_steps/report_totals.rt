//! The totals of a report, as the tests of worlds and of schedules compare them.
use ra_world::Report;

/// Returns the totals of a report: requests, messages, those under way, lost and repeated, and clients that wait and
/// are queued.
pub fn totals(report: &Report) -> [u128; 7] {
    [
        report.requests,
        report.sent,
        report.under_way,
        report.lost,
        report.repeated,
        report.waiting,
        report.queued,
    ]
}
