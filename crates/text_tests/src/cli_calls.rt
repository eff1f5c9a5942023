//! Calls of `ra_cli` that other programs may make. `ra` calls `do_alone` in place of `serve` and `answer`, so that
//! `cases/` does not show them.
use crate::text_asserting::assert_same;
use ra_cli::{CommandFault, answer, refuse_arguments, serve};
use std::alloc::Global;
use std::process::Abort;
use std::sync::Wait;
use std::thread::Threads;
use test_support::row;

/// A REQUEST of node 1 for node 2, in version 1: exclusively, the name r, number 1, clock 1.
const REQUEST: &str = "0101010201000000000000000100000000000000010172";

/// The REPLY to it, at clock 2, in version 2, as a line.
const REPLY: &str = "02020002000100000000000000000100000000000000020172\n";

/// The words of a command line.
const WORDS: [&str; 6] = ["ra", "answer", "--node", "2", "--nodes", "3"];

/// Asserts that these bytes are the bytes of the text.
fn assert_text(rt: &impl Abort, label: &str, bytes: &[u8], text: &str) {
    let came = str::from_utf8(bytes).unwrap_or("no text");
    assert_same(rt, row(label), &came, &text);
}

/// Returns those words, or `None` if there is no memory for them.
fn words(alloc: Global) -> Option<Vec<String>> {
    let mut words = Vec::new(alloc);
    for word in WORDS {
        words.push(word.to_string(alloc).ok()?).ok()?;
    }
    Some(words)
}

/// Returns what node 2 of 3 answers to the request, or nothing if it is refused.
fn answered(alloc: Global) -> Vec<u8> {
    let mut output = Vec::new(alloc);
    match answer(alloc, 2, 3, &mut REQUEST.as_bytes(), &mut output) {
        Ok(()) => output,
        Err(_) => Vec::new(alloc),
    }
}

/// Returns what `serve` prints for the words, or nothing if its status is not 0.
fn served<T: AllocGlobal + Threads + Wait + Sync>(rt: &T) -> Vec<u8> {
    let alloc = rt.alloc();
    let mut output = Vec::new(alloc);
    let Some(words) = words(alloc) else {
        return output;
    };
    match serve(
        rt,
        alloc,
        words.as_slice(),
        &mut REQUEST.as_bytes(),
        &mut output,
    ) {
        0 => output,
        _ => Vec::new(alloc),
    }
}

#[test]
fn a_request_is_answered(rt: HostRuntime) {
    let came = answered(rt.alloc());
    assert_text(&rt, "what `answer` writes", came.as_slice(), REPLY);
}

#[test]
fn a_command_is_served(rt: HostRuntime) {
    let came = served(&rt);
    assert_text(&rt, "what `serve` writes", came.as_slice(), REPLY);
}

/// Returns what is printed if there are no words for this cause, or nothing if the status is not 2.
fn refused(alloc: Global, fault: CommandFault) -> Vec<u8> {
    let mut output = Vec::new(alloc);
    match refuse_arguments(&mut output, fault) {
        2 => output,
        _ => Vec::new(alloc),
    }
}

#[test]
fn words_that_are_not_there_are_refused(rt: HostRuntime) {
    let came = refused(rt.alloc(), CommandFault::Usage);
    assert_text(&rt, "wrong words", came.as_slice(), "refused Usage\n");
    let came = refused(rt.alloc(), CommandFault::Memory);
    assert_text(&rt, "no memory", came.as_slice(), "refused Memory\n");
}
