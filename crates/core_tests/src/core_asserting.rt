//! How a test ends that does not find what it should. `test_support` has what it prints then.
use ra_stamp::{Memory, NodeId};
use std::fmt::Debug;
use std::process::Abort;
use test_support::{At, Difference, assert_memory};

/// Returns the node with this number, of 1 to 64.
pub fn node(rt: &impl Abort, number: u16) -> NodeId {
    match NodeId::new(number) {
        Some(node) => node,
        None => panic!(rt; "there is no node {number}"),
    }
}

/// Asserts that what came there is what was expected.
pub fn assert_same<T: Debug + PartialEq>(rt: &impl Abort, at: At<'_>, came: &T, expected: &T) {
    if came != expected {
        panic!(rt; "{}", Difference { at, expected, came });
    }
}

/// Looks at why a call was refused, if it was. Asserts that memory ran out then, which is the fault `memory`.
pub fn judge<E: Debug + PartialEq + Copy>(
    rt: &impl Abort,
    at: At<'_>,
    fault: Option<E>,
    memory: E,
) -> Result<(), Memory> {
    match fault {
        None => Ok(()),
        Some(fault) => Err(assert_memory!(rt, at, fault, memory)),
    }
}
