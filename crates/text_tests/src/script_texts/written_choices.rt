//! How lists of choices are written, and which ones have no text.
use crate::shared_texts::{ONE_LOCK_SCRIPT, failing};
use crate::text_asserting::{assert_same, fail};
use Choice::{Client, Lost, Message, Repeated};
use ra_schedule::{Choice, Choices, ChoicesError, Faults, Policy, choices_text};
use ra_script::{OutputKind, PerformError, perform_as};
use std::alloc::Global;
use std::process::Abort;
use test_support::{FailingWriter, part, row};

/// Makes a list of choices, or `None` if there is no memory for it.
fn listed(alloc: Global, choices: &[Choice]) -> Option<Choices> {
    let mut list = Choices::new(alloc);
    for choice in choices {
        list.push(*choice).ok()?;
    }
    Some(list)
}

/// Returns how choices are written.
fn written(alloc: Global, choices: &[Choice]) -> Result<String, ChoicesError> {
    match listed(alloc, choices) {
        Some(list) => choices_text(alloc, &list),
        None => Err(ChoicesError::Memory),
    }
}

/// Asserts that this is how choices are written.
fn assert_written(rt: &(impl Abort + AllocGlobal), choices: &[Choice], text: &str) {
    let at = part("the choices", text);
    match written(rt.alloc(), choices) {
        Ok(written) => assert_same(rt, at, &written.as_str(), &text),
        Err(fault) => assert_same(rt, at, &Some(fault), &None),
    }
}

#[test]
fn choices_are_written_in_order(rt: HostRuntime) {
    const ROWS: &[(&[Choice], &str)] = &[
        (&[], ""),
        (&[Client(0)], "c0"),
        (&[Message(0), Lost(0)], "m0 l0"),
        (
            &[Client(1), Message(0), Lost(12), Client(999_999_999)],
            "c1 m0 l12 c999999999",
        ),
    ];
    for (choices, text) in ROWS {
        assert_written(&rt, choices, text);
    }
}

#[test]
fn repeats_and_ten_digits_have_no_text(rt: HostRuntime) {
    const ROWS: &[(&str, &[Choice])] = &[
        ("a repeat", &[Repeated(0)]),
        ("a repeat at the end", &[Client(1), Message(0), Repeated(1)]),
        ("a client of ten digits", &[Client(1_000_000_000)]),
        (
            "a message of ten digits",
            &[Message(1_000_000_000), Client(1)],
        ),
        (
            "the loss of the greatest",
            &[Lost(18_446_744_073_709_551_615)],
        ),
    ];
    for (label, choices) in ROWS {
        let fault = written(rt.alloc(), choices).err();
        assert_same(&rt, row(label), &fault, &Some(ChoicesError::Choice));
    }
}

/// Performs a script by chance that repeats 400 of 1,000 messages, by a seed. Returns why its choices are not written,
/// or `None` if they are.
fn fault_by(alloc: Global, seed: u64, writer: &mut FailingWriter<'_>) -> Option<PerformError> {
    let faults = Faults::new(0, 400)?;
    let policy = Policy::Faulty { seed, faults };
    let mut reader = ONE_LOCK_SCRIPT.as_bytes();
    perform_as(alloc, &mut reader, writer, OutputKind::Choices, &policy).err()
}

/// Some seed below 100 repeats a message, which no word can say, so nothing is written.
#[test]
fn a_run_with_a_repeat_has_no_words(rt: HostRuntime) {
    for seed in 0..100 {
        let mut writer = failing("", 1_000, None);
        if fault_by(rt.alloc(), seed, &mut writer) == Some(PerformError::Choice) {
            return assert_same(&rt, row("another byte"), &writer.other, &None);
        }
    }
    fail(
        &rt,
        "expected that a run by some seed below 100 is refused with Choice, and none was",
    );
}
