//! How a test ends that does not find what it should. `test_support` has what it prints then.
use std::fmt::{Debug, Display};
use std::process::Abort;
use test_support::{At, Difference, misprint};

/// Asserts that what came there is what was expected.
pub fn assert_same<T: Debug + PartialEq>(rt: &impl Abort, at: At<'_>, came: &T, expected: &T) {
    if came != expected {
        panic!(rt; "{}", Difference { at, expected, came });
    }
}

/// Asserts that each of these values prints as the text beside it.
pub fn assert_prints<T: Display>(rt: &(impl Abort + AllocGlobal), rows: &[(T, &str)]) {
    if let Some(difference) = misprint(rt.alloc(), rows) {
        fail(rt, difference.as_str());
    }
}

/// Ends the test for this cause.
pub fn fail(rt: &impl Abort, cause: &str) -> ! {
    panic!(rt; "{cause}");
}

/// Ends the test: nothing like this was expected there.
pub fn fail_at(rt: &impl Abort, at: At<'_>, came: &str) -> ! {
    panic!(rt; "{at}: {came}");
}
