//! The bytes of a frame, each as two hexadecimal digits.
use ra_stamp::Name;

/// Returns the digits of the bytes of a frame from this place on, counted from 0, as many as there are of this many
/// bytes.
pub fn part(digits: &[u8], place: usize, width: usize) -> &[u8] {
    let start = place.saturating_mul(2);
    let end = place
        .saturating_add(width)
        .saturating_mul(2)
        .min(digits.len());
    if start <= end {
        &digits[start..end]
    } else {
        &digits[..0]
    }
}

/// Returns the number that these bytes of a frame spell, up to the end of the digits, or 0 if no byte is left.
pub fn number_at(digits: &[u8], place: usize, width: usize) -> u64 {
    let mut number: u64 = 0;
    for digit in part(digits, place, width) {
        let value = char::from(*digit).to_digit(16).unwrap_or(0);
        number = number.wrapping_mul(16).wrapping_add(u64::from(value));
    }
    number
}

/// Returns the place of the first of these bytes that no name has, or the place after them.
pub fn no_name_byte(digits: &[u8], place: usize, width: usize) -> usize {
    let end = place.saturating_add(width);
    for place in place..end {
        let [byte, ..] = number_at(digits, place, 1).to_le_bytes();
        if Name::of(&[byte]).is_none() {
            return place;
        }
    }
    end
}
