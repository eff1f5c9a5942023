//! How a test ends that does not find what it should. `test_support` has what it prints then.
use crate::whole_clusters::cluster_values::comes_to;
use std::fmt::Debug;
use std::process::Abort;
use std::sync::atomic::{AtomicU64, Ordering};
use test_support::{At, Difference};

/// Asserts that what came there is what was expected.
pub fn assert_same<T: Debug + PartialEq>(rt: &impl Abort, at: At<'_>, came: &T, expected: &T) {
    if came != expected {
        panic!(rt; "{}", Difference { at, expected, came });
    }
}

/// Looks many times, until a number is at least `least`. Asserts that it came to that.
pub fn assert_comes_to(rt: &impl Abort, at: At<'_>, number: &AtomicU64, least: u64) {
    if !comes_to(number, least) {
        assert_same(rt, at, &number.load(Ordering::SeqCst), &least);
    }
}

/// Ends the test: nothing like this was expected there.
pub fn fail_at(rt: &impl Abort, at: At<'_>, came: &str) -> ! {
    panic!(rt; "{at}: {came}");
}
