//! Each growth that a round asks for is refused: the round answers that memory ran out, nothing is lost, and the next
//! round goes on. A client that holds can leave all the same.
use crate::audit_tests::audit_acts::Act::{Audits, Ends, Enters, Leaves, Shows};
use crate::audit_tests::audit_acts::Answer::Fine;
use crate::audit_tests::audit_acts::{OF_ONE, Row, try_row};
use crate::audit_tests::audits::Shown;
use std::process::Abort;
use std::sync::Wait;
use std::thread::Threads;
use test_support::{again, assert_grown};

/// Does a row, and does it anew if memory ran out before it began.
pub fn grow<R: AllocGlobal + Threads + Wait + Abort + Sync>(rt: &R, row: &Row) {
    assert_grown!(rt, again(try_row(rt, row), try_row(rt, row)));
}

/// The name is locked and unlocked twice, with a round while it is locked, one afterwards, and the end.
const ROUNDS: &Row = &Row {
    words: "two locks, with rounds between",
    acts: &[
        Enters(1),
        Audits(Fine),
        Leaves(1),
        Audits(Fine),
        Enters(1),
        Audits(Fine),
        Leaves(1),
        Ends(Fine),
        Shows(Shown {
            steps: 4,
            requests: 2,
            sent: 0,
            under_way: 0,
            marks: 0,
        }),
    ],
    ..OF_ONE
};

#[test]
fn growth_of_rounds(rt: HostRuntime) {
    grow(&rt, ROUNDS);
}
