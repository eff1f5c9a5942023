//! How lists of choices are written.
ghost use Rattle.std.specs.Prelude.{◌≡◌, ◌⊎◌, ◌↔◌, ◌++◌, ◌<◌, All, IsTrue, OnOk, IfOk, IfErr, string_bytes};
ghost use Rattle.ra_schedule.specs.declared.choice.Choice.{Choice};
ghost use Rattle.ra_schedule.specs.ChoicesText as spec;
ghost use Rattle.ra_schedule.specs.ChoicesText.{HasText, Lists};

use crate::choice::TOO_MUCH;
use crate::{Choice, Choices, ChoicesError};
use ra_stamp::Memory;
use std::alloc::Global;

/// Returns whether a choice has a word. It does not allocate.
fn has_word(choice: &Choice) -> bool
    ensures { IsTrue result ↔ HasText choice.now }
{
    match *choice {
        Choice::Client(client) => u64::from(client) < TOO_MUCH,
        Choice::Message(place) | Choice::Lost(place) => place < TOO_MUCH,
        Choice::Repeated(_) => false,
    }
}

/// Returns whether each choice has a word. It does not allocate.
fn have_words(choices: &[Choice]) -> bool
    ensures { IsTrue result ↔ All HasText choices.now }
{
    for place in 0..choices.len() {
        if !has_word(&choices[place]) {
            return false;
        }
    }
    true
}

/// Adds the word of a choice, or nothing if it is a repeat.
fn push_word(alloc: Global, text: &mut String, choice: &Choice) -> Result<(), Memory>
    ensures { OnOk result (string_bytes text.new ≡ string_bytes text.old ++ spec.spelled choice.now) }
{
    let (letter, number) = match *choice {
        Choice::Client(client) => ("c", u64::from(client)),
        Choice::Message(place) => ("m", place),
        Choice::Lost(place) => ("l", place),
        Choice::Repeated(_) => return Ok(()),
    };
    let word = format!(in alloc; "{letter}{number}")?;
    text.push_str(word.as_str())?;
    Ok(())
}

/// Returns the words of choices, with one space between two.
fn words_of(alloc: Global, choices: &Choices) -> Result<String, Memory>
    ensures { IfOk result (λ text. string_bytes text ≡ spec.spelled_all choices.now.items) }
{
    let mut text = String::new(alloc);
    for (place, choice) in choices.as_slice().iter().enumerate() {
        if place > 0 {
            text.push_str(" ")?;
        }
        push_word(alloc, &mut text, choice)?;
    }
    Ok(text)
}

/// Returns a list of choices as it is written, so that [`read_choices`](crate::read_choices) gives it back. The cost is
/// linear in the text.
///
/// # Errors
///
/// The first that holds:
///
/// 1. `Choice`: a choice has no word, since it is a repeat, or has a number of more than nine digits.
/// 2. `Memory`: memory ran out.
pub fn choices_text(alloc: Global, choices: &Choices) -> Result<String, ChoicesError>
    ensures ok { IfOk result (λ text. Lists (string_bytes text) choices.now.items) }
    ensures err { IfErr result (λ fault. ((fault ≡ ChoicesError.Choice) × (All HasText choices.now.items → ⊥))
        ⊎ ((fault ≡ ChoicesError.Memory) × All HasText choices.now.items)) }
{
    if !have_words(choices.as_slice()) {
        return Err(ChoicesError::Choice);
    }
    let text = words_of(alloc, choices)?;
    Ok(text)
}
