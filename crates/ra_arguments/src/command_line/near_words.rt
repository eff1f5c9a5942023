//! Words that are nearly the same. The parser finds similar words itself, but not those with two letters exchanged.

/// Returns how many bytes the two words begin with that are the same.
fn shared_bytes(word: &[u8], other: &[u8]) -> usize {
    for (place, byte) in word.iter().enumerate() {
        if other.get(place) != Some(byte) {
            return place;
        }
    }
    word.len()
}

/// Returns whether the words become the same if one letter is added, left out or replaced, or if two neighbors are
/// exchanged. It does not allocate.
pub fn is_near(word: &[u8], other: &[u8]) -> bool {
    let shared = shared_bytes(word, other);
    let wrong = word.get(shared..).unwrap_or(b"");
    let right = other.get(shared..).unwrap_or(b"");
    match (wrong, right) {
        ([a, b, wrong @ ..], [c, d, right @ ..]) if a == d && b == c && wrong == right => true,
        ([_, wrong @ ..], [_, right @ ..]) if wrong == right => true,
        ([_, wrong @ ..], _) if wrong == right => true,
        (_, [_, right @ ..]) => wrong == right,
        _ => false,
    }
}
