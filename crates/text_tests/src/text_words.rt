//! How refusals and the causes of wrong lines are printed.
use crate::text_asserting::assert_prints;
use ra_draw::DrawError;
use ra_schedule::{ChoicesError, DriveError};
use ra_script::{PerformError, ScriptError};
use ra_trace::{Cause, MarkCause, TraceError, WriteTraceError};
use ra_world::{NodeRefusal, RunError, StepError};
use test_support::assert_words;

/// Faults that print as those that they have in them.
const INNER_FAULTS: &[(PerformError, &str)] = &[
    (PerformError::Script(ScriptError::Toml), "Toml"),
    (PerformError::Drive(DriveError::TurnLimit), "TurnLimit"),
];

#[test]
fn refusals_print_as_their_words(rt: HostRuntime) {
    assert_prints(&rt, INNER_FAULTS);
    assert_words!(&rt;
        ScriptError: AlreadyHeld Limit Memory;
        ChoicesError: Choice Memory;
        PerformError: Read Choice Memory Write);
}

/// Runs that have no trace print as their own faults.
const RUN_FAULTS: &[(WriteTraceError, &str)] = &[
    (WriteTraceError::Run(RunError::BadCount), "BadCount"),
    (
        WriteTraceError::Run(RunError::Refused {
            place: 2,
            cause: StepError::Node(NodeRefusal::NotHeld),
        }),
        "NotHeld",
    ),
];

#[test]
fn causes_and_faults_print_as_their_words(rt: HostRuntime) {
    assert_prints(&rt, RUN_FAULTS);
    assert_words!(&rt;
        Cause: Line Refused NotUnderWay Marks Table;
        TraceError: Read Limit Memory;
        MarkCause: Line NodeBusy NotAbove NotWaiting Held Earlier NotHeld;
        WriteTraceError: Memory Write);
}

#[test]
fn refusals_of_pictures_print_as_their_words(rt: HostRuntime) {
    assert_words!(&rt; DrawError: Read Limit TooLong Memory Write);
    assert_prints(&rt, &[(DrawError::NoLines { lines: 9 }, "NoLines")]);
}
