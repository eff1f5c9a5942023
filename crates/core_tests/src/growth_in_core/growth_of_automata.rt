//! If a growth is refused, the call returns `Memory` and changes nothing, and it succeeds when it is made again. Also
//! what an automaton shows after each call.
use crate::core_asserting::{assert_same, judge};
use crate::node_tests::automaton_calls::{
    leave, leave_and_request, receive, request, withdraw, withdraw_and_request,
};
use Call::{Ask, Leave, LeaveAndAsk, Reply, Request, Withdraw, WithdrawAndAsk};
use Doing::{IsInside, Nothing, Waits};
use Mode::{Exclusive, Shared};
use ra_automaton::{
    Automaton, LeaveError, NewError, Phase, Reaction, ReceiveError, RequestError, WithdrawError,
};
use ra_frame::{Frame, encode};
use ra_stamp::{Memory, Message, Mode};
use std::alloc::Global;
use std::process::Abort;
use test_support::{At, Tried, again, assert_grown, assert_memory, both, id, r, row};

/// A call to the automaton of node 1 of 3.
#[derive(Clone, Copy)]
enum Call {
    /// It makes a request, exclusively.
    Ask,
    /// The REPLY of this node to this number arrives.
    Reply(u16, u64),
    /// The REQUEST of this node with this number arrives, for an exclusive lock.
    Request(u16, u64),
    /// It leaves and makes a shared request in one event.
    LeaveAndAsk,
    Leave,
    /// It withdraws its request and makes a shared one in one event.
    WithdrawAndAsk,
    Withdraw,
}

/// What an automaton is doing.
#[derive(Clone, Copy)]
enum Doing {
    Nothing,
    Waits,
    IsInside,
}

/// A call, and what the automaton shows after it.
struct Row {
    call: Call,
    doing: Doing,
    /// The number and the mode of its request, if it has one.
    seq: u64,
    mode: Mode,
    /// The highest number that it has met.
    highest: u64,
    /// Which of the nodes 1 to 4 it awaits. There is no node 4.
    awaits: [bool; 4],
    /// The numbers with which it defers these nodes, or 0.
    defers: [u64; 4],
}

const NOBODY: [bool; 4] = [false; 4];

const BOTH: [bool; 4] = [false, true, true, false];

const NOTHING: [u64; 4] = [0; 4];

/// Every call at least once; each succeeds at its place. Each time that the automaton leaves or withdraws, a node is
/// deferred.
const ROWS: &[Row] = &[
    Row {
        call: Request(2, 3),
        doing: Nothing,
        seq: 0,
        mode: Exclusive,
        highest: 3,
        awaits: NOBODY,
        defers: NOTHING,
    },
    Row {
        call: Ask,
        doing: Waits,
        seq: 4,
        mode: Exclusive,
        highest: 4,
        awaits: BOTH,
        defers: NOTHING,
    },
    Row {
        call: Reply(2, 4),
        doing: Waits,
        seq: 4,
        mode: Exclusive,
        highest: 4,
        awaits: [false, false, true, false],
        defers: NOTHING,
    },
    Row {
        call: Reply(3, 4),
        doing: IsInside,
        seq: 4,
        mode: Exclusive,
        highest: 4,
        awaits: NOBODY,
        defers: NOTHING,
    },
    Row {
        call: Request(2, 5),
        doing: IsInside,
        seq: 4,
        mode: Exclusive,
        highest: 5,
        awaits: NOBODY,
        defers: [0, 5, 0, 0],
    },
    Row {
        call: LeaveAndAsk,
        doing: Waits,
        seq: 6,
        mode: Shared,
        highest: 6,
        awaits: BOTH,
        defers: NOTHING,
    },
    Row {
        call: Request(3, 7),
        doing: Waits,
        seq: 6,
        mode: Shared,
        highest: 7,
        awaits: BOTH,
        defers: [0, 0, 7, 0],
    },
    Row {
        call: Reply(3, 6),
        doing: Waits,
        seq: 6,
        mode: Shared,
        highest: 7,
        awaits: [false, true, false, false],
        defers: [0, 0, 7, 0],
    },
    Row {
        call: Reply(2, 6),
        doing: IsInside,
        seq: 6,
        mode: Shared,
        highest: 7,
        awaits: NOBODY,
        defers: [0, 0, 7, 0],
    },
    Row {
        call: Leave,
        doing: Nothing,
        seq: 0,
        mode: Exclusive,
        highest: 7,
        awaits: NOBODY,
        defers: NOTHING,
    },
    Row {
        call: Ask,
        doing: Waits,
        seq: 8,
        mode: Exclusive,
        highest: 8,
        awaits: BOTH,
        defers: NOTHING,
    },
    Row {
        call: Request(2, 9),
        doing: Waits,
        seq: 8,
        mode: Exclusive,
        highest: 9,
        awaits: BOTH,
        defers: [0, 9, 0, 0],
    },
    Row {
        call: WithdrawAndAsk,
        doing: Waits,
        seq: 10,
        mode: Shared,
        highest: 10,
        awaits: BOTH,
        defers: NOTHING,
    },
    Row {
        call: Request(3, 11),
        doing: Waits,
        seq: 10,
        mode: Shared,
        highest: 11,
        awaits: BOTH,
        defers: [0, 0, 11, 0],
    },
    Row {
        call: Withdraw,
        doing: Nothing,
        seq: 0,
        mode: Exclusive,
        highest: 11,
        awaits: NOBODY,
        defers: NOTHING,
    },
];

/// Looks at what a leave answered. If it was taken, asserts that it sent this many messages, otherwise that memory ran
/// out.
fn judge_leave(
    rt: &impl Abort,
    at: At<'_>,
    came: Result<Reaction, LeaveError>,
    sends: u64,
) -> Result<(), Memory> {
    if let Ok(reaction) = &came {
        assert_same(rt, at, &reaction.sends.len(), &sends);
    }
    judge(rt, at, came.err(), LeaveError::Memory)
}

/// Does the same with what a withdrawal answered.
fn judge_withdrawal(
    rt: &impl Abort,
    at: At<'_>,
    came: Result<Reaction, WithdrawError>,
    sends: u64,
) -> Result<(), Memory> {
    if let Ok(reaction) = &came {
        assert_same(rt, at, &reaction.sends.len(), &sends);
    }
    judge(rt, at, came.err(), WithdrawError::Memory)
}

/// Makes a call. If it is refused, memory ran out. Leaving or withdrawing sends the deferred REPLY, and asking again
/// sends two REQUESTs.
fn make(
    rt: &(impl Abort + AllocGlobal),
    at: At<'_>,
    automaton: &mut Automaton,
    call: Call,
) -> Result<(), Memory> {
    let (from, mode, seq) = match call {
        Ask => {
            let came = request(rt.alloc(), automaton, Exclusive);
            return judge(rt, at, came.err(), RequestError::Memory);
        }
        LeaveAndAsk => return judge_leave(rt, at, leave_and_request(rt, automaton, Shared), 3),
        Leave => return judge_leave(rt, at, leave(rt.alloc(), automaton), 1),
        WithdrawAndAsk => {
            return judge_withdrawal(rt, at, withdraw_and_request(rt, automaton, Shared), 3);
        }
        Withdraw => return judge_withdrawal(rt, at, withdraw(rt.alloc(), automaton), 1),
        Reply(from, seq) => (from, None, seq),
        Request(from, seq) => (from, Some(Exclusive), seq),
    };
    let fault = receive(rt, automaton, [from, 1], mode, seq).err();
    judge(rt, at, fault, ReceiveError::Memory)
}

/// Returns which of the nodes 1 to 4 an automaton awaits.
fn awaited_by(automaton: &Automaton) -> [bool; 4] {
    [
        automaton.waits_for(id(1)),
        automaton.waits_for(id(2)),
        automaton.waits_for(id(3)),
        automaton.waits_for(id(4)),
    ]
}

/// Returns the numbers with which an automaton defers the nodes 1 to 4, or 0.
fn deferred_by(automaton: &Automaton) -> [u64; 4] {
    [
        automaton.deferred(id(1)).unwrap_or(0),
        automaton.deferred(id(2)).unwrap_or(0),
        automaton.deferred(id(3)).unwrap_or(0),
        automaton.deferred(id(4)).unwrap_or(0),
    ]
}

/// What an automaton shows: what it is doing and the highest number that it has met, and whom it awaits and defers.
type Shown = ((Phase, u64), ([bool; 4], [u64; 4]));

/// Returns what an automaton shows.
fn shown(automaton: &Automaton) -> Shown {
    (
        (automaton.phase(), automaton.highest()),
        (awaited_by(automaton), deferred_by(automaton)),
    )
}

/// Returns what an automaton is doing after the call of a row.
fn phase_after(row: &Row) -> Phase {
    let (seq, mode) = (row.seq, row.mode);
    match row.doing {
        Nothing => Phase::Idle,
        Waits => Phase::Waiting { seq, mode },
        IsInside => Phase::Inside { seq, mode },
    }
}

/// Makes the call of a row. If memory ran out, all has to be as it was, and the call is made again. Asserts what
/// the automaton shows in the end.
fn try_row(
    rt: &(impl Abort + AllocGlobal),
    at: At<'_>,
    automaton: &mut Automaton,
    row: &Row,
) -> Tried {
    let (before, mut tried) = (shown(automaton), Tried::NoFailure);
    if make(rt, at, automaton, row.call).is_err() {
        assert_same(rt, at, &shown(automaton), &before);
        assert_same(rt, at, &make(rt, at, automaton, row.call), &Ok(()));
        tried = Tried::RetrySucceeded;
    }
    let expected = ((phase_after(row), row.highest), (row.awaits, row.defers));
    assert_same(rt, at, &shown(automaton), &expected);
    tried
}

/// Makes the calls of all rows.
fn try_calls(rt: &(impl Abort + AllocGlobal), automaton: &mut Automaton, rows: &[Row]) -> Tried {
    let mut tried = Tried::NoFailure;
    for place in 0..rows.len() {
        let at = At("an automaton", "call", place + 1);
        tried = both(tried, try_row(rt, at, automaton, &rows[place]));
    }
    tried
}

/// Makes an automaton and all calls to it. If there is no automaton, memory ran out.
fn try_automaton(rt: &(impl Abort + AllocGlobal)) -> Result<Tried, Memory> {
    match Automaton::new(rt.alloc(), id(1), 3, r(), 0) {
        Ok(mut automaton) => Ok(try_calls(rt, &mut automaton, ROWS)),
        Err(fault) => {
            let at = row("an automaton is made");
            Err(assert_memory!(rt, at, fault, NewError::Memory))
        }
    }
}

/// Encodes a frame that fits. If there are no bytes, memory ran out.
fn try_frame(rt: &impl Abort, alloc: Global) -> Result<Tried, Memory> {
    let frame = Frame {
        clock: 1,
        message: Message::Reply {
            from: id(2),
            to: id(1),
            name: r(),
            seq: 1,
        },
    };
    if !frame.fits() {
        panic!(rt; "the frame does not fit");
    }
    match encode(alloc, &frame) {
        Ok(_) => Ok(Tried::NoFailure),
        Err(_) => Err(Memory),
    }
}

#[test]
fn growth_of_an_automaton(rt: HostRuntime) {
    assert_grown!(&rt, again(try_automaton(&rt), try_automaton(&rt)));
}

#[test]
fn growth_of_a_frame(rt: HostRuntime) {
    let alloc = rt.alloc();
    assert_grown!(&rt, again(try_frame(&rt, alloc), try_frame(&rt, alloc)));
}
