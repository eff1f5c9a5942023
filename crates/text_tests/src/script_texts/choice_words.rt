//! How lists of choices are read.
use crate::text_asserting::assert_same;
use ra_schedule::{Choice, Choices, ChoicesError, read_choices};
use std::alloc::Global;
use test_support::part;

/// Returns what `read_choices` answers.
fn choices_of(alloc: Global, text: &str) -> Result<Choices, ChoicesError> {
    read_choices(alloc, text)
}

#[test]
fn choices_are_read_in_order(rt: HostRuntime) {
    const ROWS: &[(&str, &[Choice])] = &[
        ("", &[]),
        (
            "c1 m0 l12 c999999999",
            &[
                Choice::Client(1),
                Choice::Message(0),
                Choice::Lost(12),
                Choice::Client(999_999_999),
            ],
        ),
    ];
    for (text, expected) in ROWS {
        let at = part("the choices", text);
        match choices_of(rt.alloc(), text) {
            Ok(choices) => assert_same(&rt, at, &choices.as_slice(), expected),
            Err(fault) => assert_same(&rt, at, &Some(fault), &None),
        }
    }
}
