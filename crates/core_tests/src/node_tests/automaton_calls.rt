//! The calls of an automaton, each by itself, so that what it promises is not before the prover in each test.
use crate::core_asserting::node;
use ra_automaton::{Automaton, LeaveError, Reaction, ReceiveError, RequestError, WithdrawError};
use ra_stamp::Mode;
use std::alloc::Global;
use std::process::Abort;
use test_support::message_between;

/// An automaton makes a request. Returns its answer.
pub fn request(
    alloc: Global,
    automaton: &mut Automaton,
    mode: Mode,
) -> Result<Reaction, RequestError> {
    automaton.request(alloc, mode)
}

/// An automaton leaves. Returns its answer.
pub fn leave(alloc: Global, automaton: &mut Automaton) -> Result<Reaction, LeaveError> {
    automaton.leave(alloc)
}

/// An automaton leaves and makes a request in one event. Returns its answer.
pub fn leave_and_request(
    rt: &(impl Abort + AllocGlobal),
    automaton: &mut Automaton,
    mode: Mode,
) -> Result<Reaction, LeaveError> {
    if automaton.highest() == u64::MAX {
        panic!(rt; "no number is left");
    }
    automaton.leave_and_request(rt.alloc(), mode)
}

/// An automaton withdraws its request. Returns its answer.
pub fn withdraw(alloc: Global, automaton: &mut Automaton) -> Result<Reaction, WithdrawError> {
    automaton.withdraw(alloc)
}

/// An automaton withdraws its request and makes another one in one event. Returns its answer.
pub fn withdraw_and_request(
    rt: &(impl Abort + AllocGlobal),
    automaton: &mut Automaton,
    mode: Mode,
) -> Result<Reaction, WithdrawError> {
    if automaton.highest() == u64::MAX {
        panic!(rt; "no number is left");
    }
    automaton.withdraw_and_request(rt.alloc(), mode)
}

/// An automaton takes the REQUEST in this mode, or the REPLY if no mode is given, of one node to another about its
/// resource. Returns its answer.
pub fn receive(
    rt: &(impl Abort + AllocGlobal),
    automaton: &mut Automaton,
    ends: [u16; 2],
    mode: Option<Mode>,
    seq: u64,
) -> Result<Reaction, ReceiveError> {
    let [from, to] = [node(rt, ends[0]), node(rt, ends[1])];
    let message = message_between(from, to, automaton.name(), mode, seq);
    automaton.receive(rt.alloc(), &message)
}
