//! The lock table: what it answers to each call, and who may enter then. What it says of whole logs is in
//! `cases/mark_logs_of_table.toml`.
use crate::core_asserting::assert_same;
use Call::{Asks, Enters, Leaves};
use Mode::{Exclusive, Shared};
use ra_stamp::{Entry, Mode};
use ra_table::{EnterError, LeaveError, RequestError, Table, WithdrawError};
use std::process::Abort;
use test_support::{At, assert_prints, assert_words, entry, r};

/// A call of the table about an entry, with the answer that it gives.
#[derive(Drop)]
enum Call {
    /// A request is made.
    Asks(Result<(), RequestError>),
    /// An entry is to be granted.
    Enters(Result<(), EnterError>),
    /// A hold is to end.
    Leaves(Result<(), LeaveError>),
}

/// A call, the place of its entry among the three, and which of them may enter after it.
struct Row {
    call: Call,
    of: usize,
    may_enter: [bool; 3],
}

const NOBODY: [bool; 3] = [false, false, false];

/// A reader at node 1, a writer at node 2 and a reader at node 3 ask with the same number. What is refused changes
/// nothing.
const ROWS: &[Row] = &[
    Row {
        call: Enters(Err(EnterError::NotWaiting)),
        of: 0,
        may_enter: NOBODY,
    },
    Row {
        call: Leaves(Err(LeaveError::NotHeld)),
        of: 0,
        may_enter: NOBODY,
    },
    Row {
        call: Asks(Ok(())),
        of: 0,
        may_enter: [true, false, false],
    },
    Row {
        call: Asks(Err(RequestError::NodeBusy)),
        of: 0,
        may_enter: [true, false, false],
    },
    Row {
        call: Leaves(Err(LeaveError::NotHeld)),
        of: 0,
        may_enter: [true, false, false],
    },
    Row {
        call: Asks(Ok(())),
        of: 1,
        may_enter: [true, false, false],
    },
    Row {
        call: Asks(Ok(())),
        of: 2,
        may_enter: [true, false, false],
    },
    Row {
        call: Enters(Err(EnterError::Earlier)),
        of: 1,
        may_enter: [true, false, false],
    },
    Row {
        call: Enters(Ok(())),
        of: 0,
        may_enter: NOBODY,
    },
    Row {
        call: Enters(Err(EnterError::NotWaiting)),
        of: 0,
        may_enter: NOBODY,
    },
    Row {
        call: Asks(Err(RequestError::NodeBusy)),
        of: 0,
        may_enter: NOBODY,
    },
    Row {
        call: Enters(Err(EnterError::Earlier)),
        of: 2,
        may_enter: NOBODY,
    },
    Row {
        call: Enters(Err(EnterError::Held)),
        of: 1,
        may_enter: NOBODY,
    },
    Row {
        call: Enters(Err(EnterError::Earlier)),
        of: 2,
        may_enter: NOBODY,
    },
    Row {
        call: Enters(Err(EnterError::Held)),
        of: 1,
        may_enter: NOBODY,
    },
    Row {
        call: Leaves(Ok(())),
        of: 0,
        may_enter: [false, true, false],
    },
    Row {
        call: Leaves(Err(LeaveError::NotHeld)),
        of: 0,
        may_enter: [false, true, false],
    },
    Row {
        call: Enters(Err(EnterError::Earlier)),
        of: 2,
        may_enter: [false, true, false],
    },
    Row {
        call: Enters(Ok(())),
        of: 1,
        may_enter: NOBODY,
    },
    Row {
        call: Enters(Err(EnterError::Held)),
        of: 2,
        may_enter: NOBODY,
    },
    Row {
        call: Leaves(Ok(())),
        of: 1,
        may_enter: [false, false, true],
    },
    Row {
        call: Enters(Ok(())),
        of: 2,
        may_enter: NOBODY,
    },
    Row {
        call: Asks(Err(RequestError::NotAbove)),
        of: 0,
        may_enter: NOBODY,
    },
    Row {
        call: Leaves(Ok(())),
        of: 2,
        may_enter: NOBODY,
    },
    Row {
        call: Leaves(Err(LeaveError::NotHeld)),
        of: 2,
        may_enter: NOBODY,
    },
];

/// Asserts that the table gives this answer about an entry.
fn answers(rt: &impl Abort, at: At<'_>, table: &mut Table, call: &Call, entry: &Entry) {
    match call {
        Asks(answer) => assert_same(rt, at, &table.request(*entry), answer),
        Enters(answer) => assert_same(rt, at, &table.enter(entry), answer),
        Leaves(answer) => assert_same(rt, at, &table.leave(entry), answer),
    }
}

/// Asserts that a table gives these answers, one call after the other.
fn answers_all(rt: &impl Abort, table: &mut Table) {
    let entries = [
        entry(1, 1, r(), Shared, 1),
        entry(2, 2, r(), Exclusive, 1),
        entry(3, 3, r(), Shared, 1),
    ];
    for place in 0..ROWS.len() {
        let (row, at) = (&ROWS[place], At("a lock table", "call", place + 1));
        if row.of < 3 {
            answers(rt, at, table, &row.call, &entries[row.of]);
        }
        let may_enter = [
            table.can_enter(&entries[0]),
            table.can_enter(&entries[1]),
            table.can_enter(&entries[2]),
        ];
        assert_same(rt, at, &may_enter, &row.may_enter);
    }
}

#[test]
fn requests_are_granted_in_stamp_order(rt: HostRuntime) {
    match Table::new(rt.alloc()) {
        Ok(mut table) => answers_all(&rt, &mut table),
        Err(_) => panic!(rt; "there is no table"),
    }
}

const LEAVE_FAULTS: &[(LeaveError, &str)] = &[(LeaveError::NotHeld, "NotHeld")];

#[test]
fn a_refusal_is_printed_as_one_word(rt: HostRuntime) {
    assert_prints!(&rt, LEAVE_FAULTS);
    assert_prints!(&rt, &[(WithdrawError::NotWaiting, "NotWaiting")]);
    assert_words!(&rt;
        RequestError: NodeBusy NotAbove Memory;
        EnterError: NotWaiting Held Earlier Memory);
}
