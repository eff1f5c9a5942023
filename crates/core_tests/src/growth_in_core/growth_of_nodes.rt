//! If a growth is refused, the call returns `Memory` and changes nothing, and it succeeds when it is made again. Also
//! what a node shows after each call.
use crate::core_asserting::{assert_same, judge};
use crate::growth_in_core::growth_of_bags::{try_many_pushes, try_many_puts};
use crate::node_tests::node_answers::{fault_of_ask, fault_of_leave};
use Call::{Ask, Cancel, Forget, Leave, Reply, Request};
use ra_node::{AskError, CancelError, LeaveError, Node, Outcome, ReceiveError};
use ra_stamp::{Entry, Memory, Message, Name};
use ra_table::{EnterError, RequestError, Table};
use std::process::Abort;
use test_support::{
    At, Tried, again, assert_grown, both, id, message_between, r, reply, request, row, writer,
};

/// A call to node 1 of 2 about `r`.
#[derive(Clone, Copy)]
enum Call {
    /// This client asks for it.
    Ask(u32),
    /// The REPLY of node 2 to this number arrives.
    Reply(u64),
    /// The REQUEST of node 2 with this number arrives.
    Request(u64),
    /// This client leaves it.
    Leave(u32),
    /// This client gives it up.
    Cancel(u32),
    /// The node forgets names.
    Forget,
}

/// A call, and what the node shows after it.
struct Row {
    call: Call,
    /// How many requests wait, and how many clients are queued.
    waiting: u64,
    queued: u128,
    /// The highest number that it has met on `r`.
    highest: u64,
    /// The client that holds `r`, and the number of its request.
    holder: Option<(u32, u64)>,
}

/// Each call succeeds at its place: the second client queues, and its request is made when the first one leaves.
const ROWS: &[Row] = &[
    Row {
        call: Request(3),
        waiting: 0,
        queued: 0,
        highest: 3,
        holder: None,
    },
    Row {
        call: Ask(1),
        waiting: 1,
        queued: 0,
        highest: 4,
        holder: None,
    },
    Row {
        call: Ask(2),
        waiting: 1,
        queued: 1,
        highest: 4,
        holder: None,
    },
    Row {
        call: Reply(4),
        waiting: 0,
        queued: 1,
        highest: 4,
        holder: Some((1, 4)),
    },
    Row {
        call: Request(5),
        waiting: 0,
        queued: 1,
        highest: 5,
        holder: Some((1, 4)),
    },
    Row {
        call: Leave(1),
        waiting: 1,
        queued: 0,
        highest: 6,
        holder: None,
    },
    Row {
        call: Reply(6),
        waiting: 0,
        queued: 0,
        highest: 6,
        holder: Some((2, 6)),
    },
    Row {
        call: Leave(2),
        waiting: 0,
        queued: 0,
        highest: 6,
        holder: None,
    },
];

/// Node 2 is deferred and two clients are queued. The last one gives up in the queue. Then the first one gives up, and
/// the second one asks in its place: a REPLY to the first one is a stray. At last `r` is forgotten.
const GIVES_UP: &[Row] = &[
    Row {
        call: Ask(1),
        waiting: 1,
        queued: 0,
        highest: 1,
        holder: None,
    },
    Row {
        call: Request(1),
        waiting: 1,
        queued: 0,
        highest: 1,
        holder: None,
    },
    Row {
        call: Ask(2),
        waiting: 1,
        queued: 1,
        highest: 1,
        holder: None,
    },
    Row {
        call: Ask(3),
        waiting: 1,
        queued: 2,
        highest: 1,
        holder: None,
    },
    Row {
        call: Cancel(3),
        waiting: 1,
        queued: 1,
        highest: 1,
        holder: None,
    },
    Row {
        call: Cancel(1),
        waiting: 1,
        queued: 0,
        highest: 2,
        holder: None,
    },
    Row {
        call: Reply(1),
        waiting: 1,
        queued: 0,
        highest: 2,
        holder: None,
    },
    Row {
        call: Cancel(2),
        waiting: 0,
        queued: 0,
        highest: 2,
        holder: None,
    },
    Row {
        call: Forget,
        waiting: 0,
        queued: 0,
        highest: 2,
        holder: None,
    },
];

/// Has a node take a message. If it does not, memory ran out.
fn take(
    rt: &(impl Abort + AllocGlobal),
    at: At<'_>,
    node: &mut Node,
    message: &Message,
) -> Result<(), Memory> {
    let came = node.receive(rt.alloc(), message);
    judge(rt, at, came.err(), ReceiveError::Memory)
}

/// Makes a call. If it is refused, memory ran out.
fn make(
    rt: &(impl Abort + AllocGlobal),
    at: At<'_>,
    node: &mut Node,
    call: Call,
) -> Result<(), Memory> {
    match call {
        Ask(client) => {
            let fault = fault_of_ask(rt.alloc(), node, client, r());
            judge(rt, at, fault, AskError::Memory)
        }
        Leave(client) => {
            let fault = fault_of_leave(rt.alloc(), node, client);
            judge(rt, at, fault, LeaveError::Memory)
        }
        Cancel(client) => {
            let fault = node.cancel(rt.alloc(), client, r()).err();
            judge(rt, at, fault, CancelError::Memory)
        }
        Forget => {
            node.forget();
            Ok(())
        }
        Reply(seq) => take(rt, at, node, &reply(2, 1, seq)),
        Request(seq) => take(rt, at, node, &request(2, 1, seq)),
    }
}

/// Returns what a node shows: how many requests wait and how many clients are queued, and the highest number and the
/// holder of `r`.
fn shown(node: &Node) -> ((u64, u128), (u64, Option<Entry>)) {
    (
        (node.waiting(), node.queued()),
        (node.highest(&r()), node.holder(&r())),
    )
}

/// Makes a call. If memory ran out, all has to be as it was, and the call is made again.
fn try_call(rt: &(impl Abort + AllocGlobal), at: At<'_>, node: &mut Node, call: Call) -> Tried {
    let before = shown(node);
    if make(rt, at, node, call).is_ok() {
        return Tried::NoFailure;
    }
    assert_same(rt, at, &shown(node), &before);
    assert_same(rt, at, &make(rt, at, node, call), &Ok(()));
    Tried::RetrySucceeded
}

/// Returns what a node shows after the call of a row.
fn shown_after(row: &Row) -> ((u64, u128), (u64, Option<Entry>)) {
    let holder = match row.holder {
        Some((client, seq)) => Some(writer(1, client, seq)),
        None => None,
    };
    ((row.waiting, row.queued), (row.highest, holder))
}

/// Makes all calls, and asserts what the node shows after each.
fn try_calls(rt: &(impl Abort + AllocGlobal), node: &mut Node, label: &str, rows: &[Row]) -> Tried {
    let mut tried = Tried::NoFailure;
    for place in 0..rows.len() {
        let at = At(label, "call", place + 1);
        tried = both(tried, try_call(rt, at, node, rows[place].call));
        assert_same(rt, at, &shown(node), &shown_after(&rows[place]));
    }
    tried
}

/// Returns node 1 of this many, which takes no memory.
fn node_one(rt: &(impl Abort + AllocGlobal), nodes: u16) -> Node {
    match Node::new(rt.alloc(), id(1), nodes, 0) {
        Ok(node) => node,
        Err(fault) => panic!(rt; "there is no node 1 of {nodes}: {fault}"),
    }
}

#[test]
fn growth_of_a_node(rt: HostRuntime) {
    assert_grown!(&rt, try_calls(&rt, &mut node_one(&rt, 2), "a node", ROWS));
}

#[test]
fn growth_of_a_node_whose_clients_give_up(rt: HostRuntime) {
    let label = "a node whose clients give up";
    assert_grown!(&rt, try_calls(&rt, &mut node_one(&rt, 2), label, GIVES_UP));
}

/// How many of the calls above there are before the first leave. At it, node 2 is deferred and client 2 is queued.
const BEFORE_LEAVING: usize = 5;

/// Makes room for a leave and the calls before it. The leave needs no memory then: it may not be refused, whichever
/// growth is. If the room or a call before it is refused, memory ran out.
fn try_leaving(rt: &(impl Abort + AllocGlobal), node: &mut Node) -> Result<Tried, Memory> {
    let label = "a leave with room";
    let Ok(mut left) = Outcome::for_leave(rt.alloc(), 2) else {
        return Err(Memory);
    };
    // Nobody holds, and the room stays for the leave below.
    let Err(early) = node.leave_into(rt.alloc(), 1, r(), &mut left) else {
        panic!(rt; "{label}: expected NotHeld before the first ask, and the leave was taken");
    };
    assert_same(rt, row(label), &early, &LeaveError::NotHeld);
    for place in 0..BEFORE_LEAVING {
        make(rt, At(label, "call", place + 1), node, ROWS[place].call)?;
    }
    let came = match node.leave_into(rt.alloc(), 1, r(), &mut left) {
        Ok(()) => Ok((left.sends.len(), left.marks.len())),
        Err(fault) => Err(fault),
    };
    assert_same(rt, row(label), &came, &Ok((2, 2)));
    Ok(Tried::NoFailure)
}

#[test]
fn growth_of_a_leave_with_room(rt: HostRuntime) {
    let first = try_leaving(&rt, &mut node_one(&rt, 2));
    let second = try_leaving(&rt, &mut node_one(&rt, 2));
    assert_grown!(&rt, again(first, second));
}

/// How many of the calls of `GIVES_UP` there are before the first client gives up. At it, node 2 is deferred and client
/// 2 is queued.
const BEFORE_GIVING_UP: usize = 5;

/// Makes room for a leave and the calls before a client that waits gives up. That and a forget need no memory then:
/// they may not be refused, whichever growth is refused. If the room or a call before it is refused, memory ran out.
fn try_giving_up(rt: &(impl Abort + AllocGlobal), node: &mut Node) -> Result<Tried, Memory> {
    let label = "a client gives up with room";
    let Ok(mut ended) = Outcome::for_leave(rt.alloc(), 2) else {
        return Err(Memory);
    };
    // Nobody waits, and the room stays for the call below.
    let Err(early) = node.cancel_into(rt.alloc(), 1, r(), &mut ended) else {
        panic!(rt; "{label}: expected NotWaiting before the first ask, and the client gave up");
    };
    assert_same(rt, row(label), &early, &CancelError::NotWaiting);
    for place in 0..BEFORE_GIVING_UP {
        make(rt, At(label, "call", place + 1), node, GIVES_UP[place].call)?;
    }
    let came = match node.cancel_into(rt.alloc(), 1, r(), &mut ended) {
        Ok(()) => Ok((ended.sends.len(), ended.marks.len())),
        Err(fault) => Err(fault),
    };
    node.forget();
    assert_same(rt, row(label), &came, &Ok((2, 2)));
    Ok(Tried::NoFailure)
}

#[test]
fn growth_of_a_cancel_with_room(rt: HostRuntime) {
    let first = try_giving_up(&rt, &mut node_one(&rt, 2));
    let second = try_giving_up(&rt, &mut node_one(&rt, 2));
    assert_grown!(&rt, again(first, second));
}

/// Returns the last digit of a number.
fn digit(number: u16) -> u8 {
    b'0' + (number % 10) as u8
}

/// Returns the name of three digits.
fn three_digits(rt: &impl Abort, number: u16) -> Name {
    match Name::new(&[digit(number / 100), digit(number / 10), digit(number)]) {
        Ok(name) => name,
        Err(fault) => panic!(rt; "the name of {number} is refused: {fault}"),
    }
}

/// Has a node take a REPLY about a name of three digits, which it does not await. It changes nothing.
fn take_stray(rt: &(impl Abort + AllocGlobal), node: &mut Node, number: u16) {
    let at = At("a stray", "name", usize::from(number));
    let stray = message_between(id(2), id(1), three_digits(rt, number), None, 1);
    let came = match node.receive(rt.alloc(), &stray) {
        Ok(outcome) => Ok((outcome.sends.len(), outcome.marks.len())),
        Err(fault) => Err(fault),
    };
    assert_same(rt, at, &came, &Ok((0, 0)));
}

/// Has a node take a REQUEST about `r`, which needs memory, and then a stray about each of a thousand other names. The
/// strays need none: not one of them may be refused, whichever growth is.
fn try_strays(rt: &(impl Abort + AllocGlobal), node: &mut Node) -> Tried {
    let tried = try_call(rt, row("before the strays"), node, Request(3));
    for number in 0..1000 {
        take_stray(rt, node, number);
    }
    tried
}

#[test]
fn growth_of_a_node_that_strays_leave_as_it_was(rt: HostRuntime) {
    assert_grown!(&rt, try_strays(&rt, &mut node_one(&rt, 2)));
}

/// Returns whether a request may wait, whether it may enter, and whether it holds.
fn state_of(table: &Table, entry: &Entry) -> [bool; 3] {
    [
        table.can_request(entry),
        table.can_enter(entry),
        table.holds(entry),
    ]
}

/// Makes a request or grants it. If it is refused, memory ran out.
fn does(
    rt: &impl Abort,
    at: At<'_>,
    table: &mut Table,
    entry: &Entry,
    is_grant: bool,
) -> Result<(), Memory> {
    if is_grant {
        judge(rt, at, table.enter(entry).err(), EnterError::Memory)
    } else {
        judge(rt, at, table.request(*entry).err(), RequestError::Memory)
    }
}

/// Makes a request or grants it. If memory ran out, all has to be as it was, and it is done again.
fn try_entry(
    rt: &impl Abort,
    at: At<'_>,
    table: &mut Table,
    entry: &Entry,
    is_grant: bool,
) -> Tried {
    let before = state_of(table, entry);
    if does(rt, at, table, entry, is_grant).is_ok() {
        return Tried::NoFailure;
    }
    assert_same(rt, at, &state_of(table, entry), &before);
    assert_same(rt, at, &does(rt, at, table, entry, is_grant), &Ok(()));
    Tried::RetrySucceeded
}

/// Ends a hold, which takes no memory.
fn leaves(rt: &impl Abort, label: &str, table: &mut Table, entry: &Entry) {
    assert_same(rt, row(label), &table.leave(entry), &Ok(()));
}

/// Has a writer ask and give up, which takes no memory.
fn gives_up(rt: &impl Abort, table: &mut Table) -> Tried {
    let third = writer(3, 3, 1);
    let asked = try_entry(rt, row("the third asks"), table, &third, false);
    assert_same(
        rt,
        row("the third gives up"),
        &table.withdraw(&third),
        &Ok(()),
    );
    asked
}

/// Two writers take turns. A third one gives up.
fn try_table_calls(rt: &impl Abort, table: &mut Table) -> Tried {
    let (first, second) = (writer(1, 1, 1), writer(2, 2, 1));
    let asked = both(
        try_entry(rt, row("the first asks"), table, &first, false),
        try_entry(rt, row("the second asks"), table, &second, false),
    );
    let asked = both(asked, gives_up(rt, table));
    let entered = try_entry(rt, row("the first enters"), table, &first, true);
    leaves(rt, "the first leaves", table, &first);
    let last = try_entry(rt, row("the second enters"), table, &second, true);
    leaves(rt, "the second leaves", table, &second);
    both(both(asked, entered), last)
}

/// Makes a table and all calls to it. If there is no table, memory ran out.
fn try_table(rt: &(impl Abort + AllocGlobal)) -> Result<Tried, Memory> {
    match Table::new(rt.alloc()) {
        Ok(mut table) => Ok(try_table_calls(rt, &mut table)),
        Err(_) => Err(Memory),
    }
}

#[test]
fn growth_of_a_table(rt: HostRuntime) {
    assert_grown!(&rt, again(try_table(&rt), try_table(&rt)));
}

/// Has 10,000 clients of a node ask for `r`. All but the first are queued.
fn try_asks(rt: &(impl Abort + AllocGlobal), node: &mut Node) -> Tried {
    let (label, mut tried) = ("many clients ask", Tried::NoFailure);
    for client in 1..=10_000u32 {
        let at = At(label, "client", client as usize);
        tried = both(tried, try_call(rt, at, node, Ask(client)));
    }
    assert_same(rt, row(label), &node.queued(), &9_999);
    tried
}

/// `tools/refuse-growth` checks that these calls ask for memory only a few times: what they fill doubles in size and
/// does not grow one by one. The name of the test says so.
#[test]
fn large_few_growths_of_ten_thousand_calls(rt: HostRuntime) {
    let roomy = again(try_many_puts(&rt, true), try_many_puts(&rt, true));
    let plain = again(try_many_puts(&rt, false), try_many_puts(&rt, false));
    let bags = both(try_many_pushes(&rt), both(roomy, plain));
    let asks = try_asks(&rt, &mut node_one(&rt, 1));
    assert_grown!(&rt, both(bags, asks));
}
