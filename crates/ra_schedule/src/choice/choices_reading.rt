//! How lists of choices are read.
ghost use Rattle.std.specs.Prelude.{◌≡◌, ◌⊎◌, List, [], Some, None, OnOk, IfOk, IfErr, MatchResult};
ghost use Rattle.ra_schedule.specs.declared.choice.Choice.{Choice};
ghost use Rattle.ra_schedule.specs.ChoicesText as spec;
ghost use Rattle.ra_schedule.specs.ChoicesText.{HasChoicesFirst, Lists};

use crate::choice::MAX_DIGITS;
use crate::{Choice, Choices, ChoicesError};
use std::alloc::Global;

/// Returns the number that 1 to 9 digits spell, or `None` if these are no such digits, or the first of two or more is
/// `0`. It does not allocate. The numbers of a trace have any length, and each format is read by itself.
fn decimal_of(digits: &[u8]) -> Option<u32>
    ensures { result ≡ spec.decimal_of digits.now }
{
    if digits.is_empty() || digits.len() > MAX_DIGITS {
        return None;
    }
    if digits.len() > 1 && digits[0] == b'0' {
        return None;
    }
    let mut value = 0;
    for digit in digits {
        if !digit.is_ascii_digit() {
            return None;
        }
        value = 10 * value + u32::from(*digit - b'0');
    }
    Some(value)
}

/// Returns the choice that a word spells, or `None` if it spells none: `c`, `m` or `l`, and a decimal of 1 to 9 digits
/// without leading zeros. It does not allocate.
fn choice_of(word: &[u8]) -> Option<Choice>
    ensures { result ≡ spec.choice_of word.now }
{
    let [letter, digits @ ..] = word else {
        return None;
    };
    let number = decimal_of(digits)?;
    match letter {
        b'c' => Some(Choice::Client(number)),
        b'm' => Some(Choice::Message(u64::from(number))),
        b'l' => Some(Choice::Lost(u64::from(number))),
        _ => None,
    }
}

/// Adds the choices of a text to an empty list.
///
/// # Errors
///
/// `Choice`: a word of it is no choice. `Memory`, which may come before it once a word is one.
fn push_choices(choices: &mut Choices, text: &str) -> Result<(), ChoicesError>
    requires empty { choices.old.items ≡ [] }
    ensures ok { OnOk result (spec.choices_of text.now ≡ Some choices.new.items) }
    ensures err { IfErr result (λ fault. ((fault ≡ ChoicesError.Choice) × (spec.choices_of text.now ≡ None))
        ⊎ (fault ≡ ChoicesError.Memory)) }
    ensures memory { IfErr result (λ fault. fault ≡ ChoicesError.Memory → HasChoicesFirst text.now) }
{
    if text.is_empty() {
        return Ok(());
    }
    for word in text.split(' ') {
        let Some(choice) = choice_of(word.as_bytes()) else {
            return Err(ChoicesError::Choice);
        };
        choices.push(choice)?;
    }
    Ok(())
}

/// Reads a list of choices: words with one space between them, and none at the ends. The empty text is the empty list.
/// A word is `c`, `m` or `l` and a decimal of 1 to 9 digits without leading zeros. `cK` is the next operation of client
/// K, `mI` delivers the message at place I, and `lI` loses it. The cost is linear in the text.
///
/// # Errors
///
/// The first that holds:
///
/// 1. `Choice`: a word is not one of these.
/// 2. `Memory`, which may come before it, but only after a word that is one. So if the first word is not a choice, or
///    the text is empty, it does not come.
pub fn read_choices(alloc: Global, text: &str) -> Result<Choices, ChoicesError>
    ensures ok { IfOk result (λ choices. spec.choices_of text.now ≡ Some choices.items) }
    ensures refused { IfErr result (λ fault. ((fault ≡ ChoicesError.Choice) × (spec.choices_of text.now ≡ None))
        ⊎ (fault ≡ ChoicesError.Memory)) }

    // Memory runs out only for a choice, so the words up to it are choices.
    ensures memory { IfErr result (λ fault. fault ≡ ChoicesError.Memory → HasChoicesFirst text.now) }

    // It is read as choices only if it is how they are written, and if it is, only `Memory` can come.
    ensures lists { IfOk result (λ choices. Lists text.now choices.items) }
    ensures only { (choices : List Choice) → Lists text.now choices
        → MatchResult result (λ read. read.items ≡ choices) (λ fault. fault ≡ ChoicesError.Memory) }
{
    let mut choices = Choices::new(alloc);
    push_choices(&mut choices, text)?;
    Ok(choices)
}
