//! Whether two worlds are alike in all that they show.
use crate::world_steps::report_totals::totals;
use crate::world_steps::world_asserting::assert_same;
use crate::world_steps::world_calls::report_of;
use ra_stamp::Memory;
use ra_world::{Report, World};
use std::process::Abort;
use test_support::At;

/// Asserts that the same messages are under way in two worlds, in the same order.
fn assert_same_messages(rt: &impl Abort, at: At<'_>, came: &World, expected: &World) {
    for place in 0..expected.under_way() {
        assert_same(rt, at, &came.message_at(place), &expected.message_at(place));
    }
    assert_same(rt, at, &came.under_way(), &expected.under_way());
}

/// Asserts that two reports are the same.
fn assert_same_reports(rt: &impl Abort, at: At<'_>, came: &Report, expected: &Report) {
    assert_same(rt, at, &came.marks.as_slice(), &expected.marks.as_slice());
    assert_same(rt, at, &totals(came), &totals(expected));
}

/// Returns how many steps a world has made, and how many requests and messages there were.
fn counts(world: &World) -> (u64, (u128, u128)) {
    (world.steps(), (world.requests(), world.sent()))
}

/// Asserts that two worlds have made as many steps, have the same messages under way and report the same.
///
/// # Errors
///
/// `Memory`: there is no memory for a report.
pub fn assert_alike(
    rt: &(impl Abort + AllocGlobal),
    at: At<'_>,
    came: &World,
    expected: &World,
) -> Result<(), Memory> {
    assert_same(rt, at, &counts(came), &counts(expected));
    assert_same_messages(rt, at, came, expected);
    match (report_of(rt.alloc(), came), report_of(rt.alloc(), expected)) {
        (Some(came), Some(expected)) => {
            assert_same_reports(rt, at, &came, &expected);
            Ok(())
        }
        _ => Err(Memory),
    }
}
