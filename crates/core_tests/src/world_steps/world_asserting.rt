//! How a test ends that does not find what it should. `test_support` has what it prints then.
use ra_stamp::Memory;
use std::fmt::{Debug, Display};
use std::process::Abort;
use test_support::{At, Difference, Tried, misprint};

/// Asserts that there is this text.
pub fn assert_text(rt: &impl Abort, at: At<'_>, came: Result<String, Memory>, expected: &str) {
    match came {
        Ok(came) => assert_same(rt, at, &came.as_str(), &expected),
        Err(Memory) => fail_at(rt, at, "there is no memory for the text"),
    }
}

/// Asserts that what came there is what was expected.
pub fn assert_same<T: Debug + PartialEq>(rt: &impl Abort, at: At<'_>, came: &T, expected: &T) {
    if came != expected {
        panic!(rt; "{}", Difference { at, expected, came });
    }
}

/// Asserts that each of these values prints as the text beside it.
pub fn assert_prints<T: Display>(rt: &(impl Abort + AllocGlobal), rows: &[(T, &str)]) {
    if let Some(difference) = misprint(rt.alloc(), rows) {
        fail(rt, difference.as_str());
    }
}

/// Asserts that calls with a refused growth had the right answer, and changed nothing.
pub fn assert_grown(rt: &impl Abort, tried: Tried) {
    if let Some(fault) = tried.fault() {
        fail(rt, fault);
    }
}

/// Ends the test for this cause.
pub fn fail(rt: &impl Abort, cause: &str) -> ! {
    panic!(rt; "{cause}");
}

/// Ends the test: nothing like this was expected there.
pub fn fail_at(rt: &impl Abort, at: At<'_>, came: &str) -> ! {
    panic!(rt; "{at}: {came}");
}
