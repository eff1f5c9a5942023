//! What automata and nodes refuse and no command shows: nodes that cannot be, a message of the node itself, which no
//! frame carries, and calls of an automaton that do not fit its phase; and how faults are printed.
use crate::core_asserting::{assert_same, node};
use crate::node_tests::automaton_calls::{leave, leave_and_request, receive, request};
use Call::{Leaves, LeavesAndRequests, Requests};
use Mode::Shared;
use ra_automaton::{Automaton, LeaveError, Phase, RequestError, WithdrawError};
use ra_node::{AskError, CancelError, LeaveError as NodeLeaveError, NewError, Node, ReceiveError};
use ra_stamp::Mode;
use std::process::Abort;
use test_support::{assert_words, message_between, q, r, row};

/// A node and how many nodes there are, and why there is no such node, or `None` if there is one.
struct Made {
    me: u16,
    nodes: u16,
    fault: Option<NewError>,
}

const MADE: &[Made] = &[
    Made {
        me: 1,
        nodes: 1,
        fault: None,
    },
    Made {
        me: 64,
        nodes: 64,
        fault: None,
    },
    Made {
        me: 3,
        nodes: 3,
        fault: None,
    },
    Made {
        me: 63,
        nodes: 63,
        fault: None,
    },
    Made {
        me: 64,
        nodes: 63,
        fault: Some(NewError::BadNode),
    },
    Made {
        me: 4,
        nodes: 3,
        fault: Some(NewError::BadNode),
    },
    Made {
        me: 1,
        nodes: 0,
        fault: Some(NewError::BadCount),
    },
    Made {
        me: 2,
        nodes: 0,
        fault: Some(NewError::BadCount),
    },
    Made {
        me: 1,
        nodes: 65,
        fault: Some(NewError::BadCount),
    },
];

#[test]
fn there_are_one_to_sixty_four_nodes(rt: HostRuntime) {
    for made in MADE {
        let (me, nodes) = (node(&rt, made.me), made.nodes);
        let expected = (made.me, nodes, made.fault);
        let at = row("an automaton: its node, how many nodes there are, and why there is none");
        let fault = Automaton::new(rt.alloc(), me, nodes, r(), 0).err();
        assert_same(&rt, at, &(made.me, nodes, fault), &expected);
        let at = row("a node, how many nodes there are, and why there is none");
        let fault = Node::new(rt.alloc(), me, nodes, 0).err();
        assert_same(&rt, at, &(made.me, nodes, fault), &expected);
    }
}

/// A message from a node to another one, and why node 2 of 3 refuses it. The receiver comes first if the sender is
/// wrong, too.
struct Sent {
    from: u16,
    to: u16,
    fault: ReceiveError,
}

const SENT: &[Sent] = &[
    Sent {
        from: 3,
        to: 1,
        fault: ReceiveError::WrongNode,
    },
    Sent {
        from: 4,
        to: 3,
        fault: ReceiveError::WrongNode,
    },
    Sent {
        from: 2,
        to: 2,
        fault: ReceiveError::Stranger,
    },
    Sent {
        from: 4,
        to: 2,
        fault: ReceiveError::Stranger,
    },
];

/// Asserts that an automaton and a node refuse a REQUEST in this mode, or a REPLY if no mode is given, and meet no
/// number by it.
fn assert_refused(
    rt: &(impl Abort + AllocGlobal),
    members: (&mut Automaton, &mut Node),
    sent: &Sent,
    mode: Option<Mode>,
) {
    let (automaton, member) = members;
    let expected = (sent.from, sent.to, Some(sent.fault), 0);
    let at = row("an automaton: from, to, why it is refused, and the highest number");
    let fault = receive(rt, automaton, [sent.from, sent.to], mode, 7).err();
    assert_same(
        rt,
        at,
        &(sent.from, sent.to, fault, automaton.highest()),
        &expected,
    );
    let at = row("a node: from, to, why it is refused, and the highest number");
    let message = message_between(node(rt, sent.from), node(rt, sent.to), r(), mode, 7);
    let fault = member.receive(rt.alloc(), &message).err();
    assert_same(
        rt,
        at,
        &(sent.from, sent.to, fault, member.highest(&r())),
        &expected,
    );
}

/// Returns the automaton of node `me` of `nodes` for `r`.
fn new_automaton(rt: &(impl Abort + AllocGlobal), me: u16, nodes: u16, start: u64) -> Automaton {
    match Automaton::new(rt.alloc(), node(rt, me), nodes, r(), start) {
        Ok(automaton) => automaton,
        Err(fault) => panic!(rt; "there is no automaton of node {me} of {nodes}: {fault}"),
    }
}

#[test]
fn messages_come_from_another_node_to_this_one(rt: HostRuntime) {
    let mut automaton = new_automaton(&rt, 2, 3, 0);
    match Node::new(rt.alloc(), node(&rt, 2), 3, 0) {
        Ok(mut member) => {
            for sent in SENT {
                assert_refused(&rt, (&mut automaton, &mut member), sent, Some(Shared));
                assert_refused(&rt, (&mut automaton, &mut member), sent, None);
            }
        }
        Err(fault) => assert_same(&rt, row("node 2 of 3"), &Some(fault), &None),
    }
}

/// A call of an automaton, and why it is refused, or `None` if it is not.
#[derive(Clone, Copy)]
enum Call {
    Requests(Option<RequestError>),
    Leaves(Option<LeaveError>),
    LeavesAndRequests(Option<LeaveError>),
}

/// A call that an automaton gets.
struct Called {
    shows: &'static str,
    call: Call,
}

/// The calls of an automaton that begins while it is idle. Its first request has the greatest number.
const CALLS: &[Called] = &[
    Called {
        shows: "it leaves and asks while it is idle",
        call: LeavesAndRequests(Some(LeaveError::NotHeld)),
    },
    Called {
        shows: "it leaves while it is idle",
        call: Leaves(Some(LeaveError::NotHeld)),
    },
    Called {
        shows: "it asks while it is idle",
        call: Requests(None),
    },
    Called {
        shows: "it asks while it is inside",
        call: Requests(Some(RequestError::NotIdle)),
    },
    Called {
        shows: "it leaves",
        call: Leaves(None),
    },
    Called {
        shows: "it asks after the greatest number",
        call: Requests(Some(RequestError::Exhausted)),
    },
];

/// Asserts that an automaton refuses a call or not, as the call says.
fn assert_called(rt: &(impl Abort + AllocGlobal), automaton: &mut Automaton, called: &Called) {
    let at = row(called.shows);
    match called.call {
        Requests(fault) => {
            let came = request(rt.alloc(), automaton, Shared).err();
            assert_same(rt, at, &came, &fault);
        }
        Leaves(fault) => {
            let came = leave(rt.alloc(), automaton).err();
            assert_same(rt, at, &came, &fault);
        }
        LeavesAndRequests(fault) => {
            let came = leave_and_request(rt, automaton, Shared).err();
            assert_same(rt, at, &came, &fault);
        }
    }
}

#[test]
fn an_automaton_makes_one_request_at_a_time_up_to_the_greatest_number(rt: HostRuntime) {
    let mut automaton = new_automaton(&rt, 1, 1, u64::MAX - 1);
    assert_same(&rt, row("its node"), &automaton.me().get(), &1);
    let name = (automaton.name(), automaton.name() == q());
    assert_same(&rt, row("its name"), &name, &(r(), false));
    for called in CALLS {
        assert_called(&rt, &mut automaton, called);
    }
    let shown = (automaton.phase(), automaton.highest());
    let expected = (Phase::Idle, u64::MAX);
    assert_same(
        &rt,
        row("its phase and the highest number"),
        &shown,
        &expected,
    );
}

#[test]
fn faults_are_printed_as_their_words(rt: HostRuntime) {
    assert_words!(&rt;
        NewError: BadCount BadNode Memory;
        RequestError: NotIdle Exhausted Memory;
        ReceiveError: WrongNode Stranger Memory;
        LeaveError: NotHeld Memory;
        WithdrawError: NotWaiting Memory;
        AskError: Busy Exhausted Memory;
        NodeLeaveError: NotHeld Memory;
        CancelError: NotWaiting Memory);
}
