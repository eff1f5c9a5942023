//! What a node says of its clients without an event: who may ask, who holds, and how many wait and are queued.
use crate::core_asserting::assert_same;
use Mode::Exclusive;
use ra_node::{AskError, LeaveError, Node, Outcome};
use ra_stamp::{Mode, Name};
use std::alloc::Global;
use std::process::Abort;
use test_support::{id, q, r, row, writer};

/// A client asks for a name, exclusively. Returns why that is refused, or `None` if it is not.
pub fn fault_of_ask(alloc: Global, node: &mut Node, client: u32, name: Name) -> Option<AskError> {
    node.ask(alloc, client, name, Exclusive).err()
}

/// A client leaves `r`. Returns why that is refused, or `None` if it is not.
pub fn fault_of_leave(alloc: Global, node: &mut Node, client: u32) -> Option<LeaveError> {
    leave(alloc, node, client).err()
}

/// A client leaves `r`. Returns its answer.
fn leave(alloc: Global, node: &mut Node, client: u32) -> Result<Outcome, LeaveError> {
    node.leave(alloc, client, r())
}

/// Returns whether the clients 1, 2 and 3 may ask for `r`, and client 1 for `q`, or why not.
fn who_may_ask(node: &Node) -> [Result<(), AskError>; 4] {
    [
        node.may_ask(1, &r()),
        node.may_ask(2, &r()),
        node.may_ask(3, &r()),
        node.may_ask(1, &q()),
    ]
}

/// Asserts that clients ask for names, and what a node says then.
fn tells(rt: &(impl Abort + AllocGlobal), node: &mut Node) {
    let (busy, exhausted) = (Err(AskError::Busy), Err(AskError::Exhausted));
    assert_same(rt, row("before"), &who_may_ask(node), &[Ok(()); 4]);
    for client in [1, 2] {
        let fault = fault_of_ask(rt.alloc(), node, client, r());
        assert_same(rt, row("two clients ask for r"), &fault, &None);
    }
    assert_same(
        rt,
        row("one holds, one is queued"),
        &who_may_ask(node),
        &[busy, busy, Ok(()), Ok(())],
    );
    assert_same(
        rt,
        row("the first leaves"),
        &fault_of_leave(rt.alloc(), node, 1),
        &None,
    );
    let expected = [exhausted, busy, exhausted, Ok(())];
    assert_same(
        rt,
        row("the other holds with the greatest number"),
        &who_may_ask(node),
        &expected,
    );
    for client in [1, 3, 4] {
        let fault = fault_of_ask(rt.alloc(), node, client, q());
        assert_same(rt, row("three clients ask for q"), &fault, &None);
    }
    let shown = (
        node.waiting(),
        node.queued(),
        node.highest(&r()),
        node.highest(&q()),
    );
    let at = row("how many wait and are queued, and the highest numbers");
    assert_same(rt, at, &shown, &(0, 2, u64::MAX, u64::MAX - 1));
    let holder = Some(writer(1, 2, u64::MAX));
    assert_same(rt, row("who holds r"), &node.holder(&r()), &holder);
}

/// The node is alone, and two numbers are left.
#[test]
fn a_node_tells_who_may_ask_and_how_many_wait(rt: HostRuntime) {
    match Node::new(rt.alloc(), id(1), 1, u64::MAX - 2) {
        Ok(mut node) => tells(&rt, &mut node),
        Err(fault) => assert_same(&rt, row("node 1 of 1"), &Some(fault), &None),
    }
}
