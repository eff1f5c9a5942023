//! The fields of a line.
ghost use Rattle.std.specs.Prelude.{◌≡◌, ◌≤◌, ◌^◌, true, Some, None, IfSome, IfNone, MatchOption};
ghost use Rattle.std.specs.Char.{is_ascii_digit};
ghost use Rattle.std.specs.List.{list_all};
ghost use Rattle.std.specs.Str.Parse.{digits_value};
ghost use Rattle.ra_trace.specs.Forms as spec;

use ra_stamp::{Mode, Name, NodeId};

/// Returns what is before and after the first occurrence of a byte in a text, or `None` if it does not occur. It does
/// not allocate.
#[inline(always)]
pub fn split_once(text: &[u8], byte: u8) -> Option<(&[u8], &[u8])>
    ensures { MatchOption result (spec.cut byte text.now ≡ None)
        (λ parts. spec.cut byte text.now ≡ Some (parts.0.now, parts.1.now)) }
{
    for (end, other) in text.iter().enumerate() {
        if *other == byte {
            return Some((&text[..end], &text[end + 1..]));
        }
    }
    None
}

/// Returns the number that digits write, or `None` if a byte is not a digit or the number does not fit. It does not
/// allocate.
#[inline(always)]
fn value_of(digits: &[u8]) -> Option<u64>
    ensures some { IfSome result (λ value. (list_all is_ascii_digit digits.now ≡ true)
        × (value ≡ digits_value 10 digits.now)) }
    ensures none { IfNone result (list_all is_ascii_digit digits.now ≡ true → 2 ^ 64 ≤ digits_value 10 digits.now) }
{
    let mut value = 0u64;
    for &byte in digits {
        if !byte.is_ascii_digit() {
            return None;
        }
        let Some(tenfold) = value.checked_mul(10) else {
            return None;
        };
        let Some(more) = tenfold.checked_add(u64::from(byte - b'0')) else {
            return None;
        };
        value = more;
    }
    Some(value)
}

/// Returns the number that these digits write, if there are some, no zero leads, and it is in a range, both ends
/// included.
#[tactic(auto, using(crate::proofs::Decimals::ranges))]
#[inline(always)]
fn number_if_within(low: u64, high: u64, digits: &[u8], number: u64) -> Option<u64>
    requires digits { list_all is_ascii_digit digits.now ≡ true }
    requires number { number ≡ digits_value 10 digits.now }
    ensures value { result ≡ spec.number_within low high digits.now }
    ensures within { IfSome result (λ n. (low ≤ n) × (n ≤ high)) }
{
    if digits.is_empty() || (digits.len() > 1 && digits[0] == b'0') {
        return None;
    }
    if low <= number && number <= high {
        Some(number)
    } else {
        None
    }
}

/// Returns the number of a decimal without leading zeros, if it is in a range, both ends included. It does not
/// allocate.
#[tactic(auto, using(crate::proofs::Decimals::ranges))]
#[inline(always)]
fn number_within(low: u64, high: u64, digits: &[u8]) -> Option<u64>
    ensures { result ≡ spec.number_within low high digits.now }
{
    let Some(number) = value_of(digits) else {
        return None;
    };
    number_if_within(low, high, digits, number)
}

/// Returns the number of a decimal before the first space, as `number_within` does, and what is after the space. It
/// looks at each byte once, and does not allocate.
#[inline(always)]
pub fn number_before(low: u64, high: u64, text: &[u8]) -> Option<(u64, &[u8])>
    ensures value { MatchOption result (spec.before (spec.number_within low high) text.now ≡ None)
        (λ prefix. spec.before (spec.number_within low high) text.now ≡ Some (prefix.0, prefix.1.now)) }
    ensures within { IfSome result (λ prefix. (low ≤ prefix.0) × (prefix.0 ≤ high)) }
{
    let mut number = 0u64;
    for (end, &byte) in text.iter().enumerate() {
        if byte == b' ' {
            let Some(number) = number_if_within(low, high, &text[..end], number) else {
                return None;
            };
            return Some((number, &text[end + 1..]));
        }
        if !byte.is_ascii_digit() {
            return None;
        }
        let Some(tenfold) = number.checked_mul(10) else {
            return None;
        };
        let Some(more) = tenfold.checked_add(u64::from(byte - b'0')) else {
            return None;
        };
        number = more;
    }
    None
}

/// Returns the node of a field, 1 to 64. It does not allocate.
pub fn node_of(field: &[u8]) -> Option<NodeId>
    ensures { result ≡ spec.node_of field.now }
{
    let Some(number) = number_within(1, u64::from(NodeId::MAX), field) else {
        return None;
    };
    NodeId::new(number as u16)
}

/// Returns the client of a field, 0 to 2^32 - 1. It does not allocate.
pub fn client_of(field: &[u8]) -> Option<u32>
    ensures { result ≡ spec.client_of field.now }
{
    let Some(number) = number_within(0, u64::from(u32::MAX), field) else {
        return None;
    };
    Some(number as u32)
}

/// Returns the number of a field, 0 to 2^64 - 1. It does not allocate.
#[inline(always)]
pub fn start_of(field: &[u8]) -> Option<u64>
    ensures { result ≡ spec.start_of field.now }
{
    number_within(0, u64::MAX, field)
}

/// Returns the sequence number of a field, 1 to 2^64 - 1. It does not allocate.
#[inline(always)]
pub fn seq_of(field: &[u8]) -> Option<u64>
    ensures { result ≡ spec.seq_of field.now }
{
    number_within(1, u64::MAX, field)
}

/// Returns the name of a field. It does not allocate.
#[inline(always)]
pub fn name_of(field: &[u8]) -> Option<Name>
    ensures { result ≡ spec.name_of field.now }
{
    Name::of(field)
}

/// Returns the mode of a field, `X`, `S`, `IS`, `IX` or `SIX`. It does not allocate.
#[inline(always)]
pub fn mode_of(field: &[u8]) -> Option<Mode>
    ensures { result ≡ spec.mode_of field.now }
{
    match field {
        b"X" => Some(Mode::Exclusive),
        b"S" => Some(Mode::Shared),
        b"IS" => Some(Mode::IntentShared),
        b"IX" => Some(Mode::IntentExclusive),
        b"SIX" => Some(Mode::SharedIntentExclusive),
        _ => None,
    }
}
