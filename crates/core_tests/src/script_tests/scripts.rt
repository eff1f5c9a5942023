//! Scripts: how many nodes, clients and operations they take, and how they are read.
use crate::world_steps::world_asserting::assert_same;
use ra_schedule::{AddClientError, AddOpError, NewScriptError, Op, Script};
use ra_stamp::Mode;
use std::alloc::Global;
use std::process::Abort;
use test_support::{At, q, r, row};

/// Adds an operation, and returns why it is refused, or `None` if it is not.
fn fault_of_op(script: &mut Script, op: &Op) -> Option<AddOpError> {
    script.add_op(*op).err()
}

/// Adds a client at this node, and returns why it is refused, or `None` if it is not.
pub fn fault_of_client(alloc: Global, script: &mut Script, node: u16) -> Option<AddClientError> {
    script.add_client(alloc, node).err()
}

/// Returns the operation that locks `r` exclusively.
fn locks_r() -> Op {
    Op::Lock(r(), Mode::Exclusive)
}

/// Adds a client at this node that locks `r` exclusively and unlocks it. Returns whether there was room for it.
pub fn adds_locker(alloc: Global, script: &mut Script, node: u16) -> bool {
    fault_of_client(alloc, script, node).is_none()
        && fault_of_op(script, &locks_r()).is_none()
        && fault_of_op(script, &Op::Unlock(r())).is_none()
}

/// Asserts that a script takes a client at this node, or does not, for this cause.
fn assert_client(
    rt: &(impl Abort + AllocGlobal),
    label: &str,
    script: &mut Script,
    node: u16,
    cause: Option<AddClientError>,
) {
    let at = At(label, "a client at node", usize::from(node));
    assert_same(rt, at, &fault_of_client(rt.alloc(), script, node), &cause);
}

/// Asserts that the last client may do this, or may not, for this cause.
fn assert_op(
    rt: &impl Abort,
    label: &str,
    script: &mut Script,
    op: &Op,
    cause: Option<AddOpError>,
) {
    assert_same(rt, row(label), &fault_of_op(script, op), &cause);
}

/// Asserts that the last client may lock `r` exclusively and unlock it, this many times.
pub fn adds_locks(rt: &impl Abort, label: &str, script: &mut Script, times: u32) {
    for _ in 0..times {
        assert_op(rt, label, script, &locks_r(), None);
        assert_op(rt, label, script, &Op::Unlock(r()), None);
    }
}

/// How many nodes there are, and why there is no script of them, or `None` if there is one.
const NODES: &[(u16, Option<NewScriptError>)] = &[
    (0, Some(NewScriptError::Nodes)),
    (1, None),
    (64, None),
    (65, Some(NewScriptError::Nodes)),
];

#[test]
fn nodes_are_one_to_sixty_four(rt: HostRuntime) {
    for (nodes, expected) in NODES {
        let at = At("a script", "with this many nodes:", usize::from(*nodes));
        match Script::new(rt.alloc(), *nodes) {
            Ok(script) => assert_same(&rt, at, &(script.nodes(), None), &(*nodes, *expected)),
            Err(fault) => assert_same(&rt, at, &Some(fault), expected),
        }
    }
}

/// Asserts what a new script of two nodes refuses.
fn refuses(rt: &(impl Abort + AllocGlobal), script: &mut Script) {
    let label = "no client";
    assert_op(rt, label, script, &locks_r(), Some(AddOpError::Clients));
    assert_op(
        rt,
        label,
        script,
        &Op::Unlock(r()),
        Some(AddOpError::Clients),
    );
    assert_client(rt, label, script, 0, Some(AddClientError::Clients));
    assert_client(rt, label, script, 3, Some(AddClientError::Clients));
    assert_same(
        rt,
        row("the clients after these refusals"),
        &script.clients(),
        &0,
    );
    assert_client(rt, "the first client", script, 1, None);
    let label = "a client that holds nothing";
    assert_op(
        rt,
        label,
        script,
        &Op::Unlock(r()),
        Some(AddOpError::NotHeld),
    );
    assert_op(rt, label, script, &locks_r(), None);
    let label = "a client that holds r";
    assert_op(
        rt,
        label,
        script,
        &Op::Unlock(q()),
        Some(AddOpError::NotHeld),
    );
    assert_op(rt, label, script, &locks_r(), Some(AddOpError::AlreadyHeld));
    assert_same(rt, row("its operations"), &script.ops_of(1), &Some(1));
    assert_op(rt, label, script, &Op::Lock(q(), Mode::Shared), None);
    assert_op(rt, label, script, &Op::Unlock(r()), None);
    assert_op(rt, "it has unlocked r", script, &locks_r(), None);
    assert_same(rt, row("its operations"), &script.ops_of(1), &Some(4));
}

/// Asserts that a script with one client takes 63 more, and no more; the last one does 1,024 operations.
fn is_full(rt: &(impl Abort + AllocGlobal), script: &mut Script) {
    for _ in 0..63 {
        assert_client(rt, "up to 64 clients", script, 2, None);
    }
    assert_client(
        rt,
        "a client too many",
        script,
        1,
        Some(AddClientError::Clients),
    );
    assert_same(rt, row("the clients"), &script.clients(), &64);
    let label = "1,024 operations";
    adds_locks(rt, label, script, 512);
    assert_op(rt, label, script, &locks_r(), Some(AddOpError::Limit));
    assert_op(rt, label, script, &Op::Unlock(r()), Some(AddOpError::Limit));
    assert_same(
        rt,
        row("the operations of the last client"),
        &script.ops_of(64),
        &Some(1024),
    );
}

#[test]
fn a_script_takes_sixty_four_clients_with_1024_operations(rt: HostRuntime) {
    match Script::new(rt.alloc(), 2) {
        Ok(mut script) => {
            refuses(&rt, &mut script);
            is_full(&rt, &mut script);
        }
        Err(fault) => assert_same(&rt, row("a script of two nodes"), &Some(fault), &None),
    }
}

/// The number of a client, its node and how many operations it has, or `None` if there is no such client.
const CLIENTS: &[(u32, Option<u16>, Option<u64>)] = &[
    (0, None, None),
    (1, Some(2), Some(2)),
    (2, Some(1), Some(1)),
    (3, None, None),
    (u32::MAX, None, None),
];

/// Clients, and places without an operation of theirs.
const NO_OPERATIONS: &[(u32, u64)] = &[(0, 0), (1, 2), (1, u64::MAX), (2, 1), (3, 0)];

/// Returns the number of a client's node.
fn node_of(script: &Script, client: u32) -> Option<u16> {
    match script.node_of(client) {
        Some(node) => Some(node.get()),
        None => None,
    }
}

/// Asserts that a script has its two clients and their operations, and no others.
fn is_read(rt: &impl Abort, script: &Script) {
    for (client, node, ops) in CLIENTS {
        let came = (*client, node_of(script, *client), script.ops_of(*client));
        assert_same(
            rt,
            row("a client, its node and its operations"),
            &came,
            &(*client, *node, *ops),
        );
    }
    let ops = [script.op(1, 0), script.op(1, 1), script.op(2, 0)];
    let expected = [
        Some(locks_r()),
        Some(Op::Unlock(r())),
        Some(Op::Lock(q(), Mode::Shared)),
    ];
    assert_same(rt, row("the operations"), &ops, &expected);
    for (client, place) in NO_OPERATIONS {
        let came = (*client, *place, script.op(*client, *place));
        assert_same(
            rt,
            row("a client and a place"),
            &came,
            &(*client, *place, None),
        );
    }
}

/// Client 1 is at node 2, and client 2 at node 1.
#[test]
fn a_script_is_read_by_clients_and_places(rt: HostRuntime) {
    match Script::new(rt.alloc(), 2) {
        Ok(mut script) => {
            assert_same(
                &rt,
                row("the first client"),
                &adds_locker(rt.alloc(), &mut script, 2),
                &true,
            );
            assert_client(&rt, "the second client", &mut script, 1, None);
            let op = Op::Lock(q(), Mode::Shared);
            assert_op(&rt, "the second client", &mut script, &op, None);
            is_read(&rt, &script);
        }
        Err(fault) => assert_same(&rt, row("a script of two nodes"), &Some(fault), &None),
    }
}
