//! What is printed of worlds and of schedules: refusals, the greatest mark and faults.
use crate::world_steps::world_asserting::{assert_prints, assert_same, assert_text};
use ra_schedule::{AddClientError, AddOpError, DriveError, NewScriptError};
use ra_stamp::{Mark, Mode, Name};
use ra_text::mark_line;
use ra_world::{NewError, NodeRefusal, RunError, StepError};
use test_support::{assert_words, entry, row};

/// Why a step is refused, with its word.
const CAUSES: &[(StepError, &str)] = &[
    (StepError::Node(NodeRefusal::Busy), "Busy"),
    (StepError::Node(NodeRefusal::Exhausted), "Exhausted"),
    (StepError::Node(NodeRefusal::NotHeld), "NotHeld"),
    (StepError::Node(NodeRefusal::NotWaiting), "NotWaiting"),
    (StepError::NoNode, "NoNode"),
    (StepError::NotUnderWay, "NotUnderWay"),
    (StepError::Memory, "Memory"),
];

#[test]
fn refusals_are_printed_as_their_words(rt: HostRuntime) {
    assert_prints(&rt, CAUSES);
    for (cause, word) in CAUSES {
        let of_run = RunError::Refused {
            place: 7,
            cause: *cause,
        };
        assert_prints(&rt, &[(of_run, *word)]);
    }
    assert_words!(&rt; RunError: BadCount Memory; NewError: BadCount Memory);
}

/// The mark Requested with the longest name and mode and the greatest numbers.
#[test]
fn the_greatest_numbers_are_printed(rt: HostRuntime) {
    let line = "request 64 4294967295 abcdefghijklmnopqrstuvwxyzABCDEF SIX 18446744073709551615\n";
    match Name::new(b"abcdefghijklmnopqrstuvwxyzABCDEF") {
        Ok(name) => {
            let mode = Mode::SharedIntentExclusive;
            let mark = Mark::Requested(entry(64, u32::MAX, name, mode, u64::MAX));
            let came = mark_line(rt.alloc(), &mark);
            assert_text(&rt, row("the greatest mark"), came, line);
        }
        Err(fault) => assert_same(&rt, row("the longest name"), &Some(fault), &None),
    }
}

#[test]
fn faults_are_printed_as_their_words(rt: HostRuntime) {
    assert_words!(&rt;
        NewScriptError: Nodes Memory;
        AddClientError: Clients Memory;
        AddOpError: Clients Limit NotHeld AlreadyHeld Memory;
        DriveError: TurnLimit BadPlace NotEnabled Memory);
}
