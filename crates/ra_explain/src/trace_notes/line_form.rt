//! Which form a line of a trace or of a mark log has, by its words.
use ra_text::cut;
use ra_trace::{Change, Fate, LineKind, Version};

/// What ends the first line of a trace that tells what is sent.
pub const SENDS: &[u8] = b" sends";

/// The marks.
pub const MARKS: &[LineKind] = &[
    LineKind::Mark(Change::Requested),
    LineKind::Mark(Change::Entered),
    LineKind::Mark(Change::Left),
    LineKind::Mark(Change::Withdrawn),
];

/// The first lines of traces.
pub const FIRST_LINES: &[LineKind] = &[
    LineKind::First(Version::One),
    LineKind::First(Version::Two),
    LineKind::First(Version::Three),
];

/// The lines after the first one: marks, steps, and the last line.
pub const LATER_LINES: &[LineKind] = &[
    LineKind::Mark(Change::Requested),
    LineKind::Mark(Change::Entered),
    LineKind::Mark(Change::Left),
    LineKind::Mark(Change::Withdrawn),
    LineKind::Ask,
    LineKind::Leave,
    LineKind::Cancel,
    LineKind::Forget,
    LineKind::Request(Fate::Delivered),
    LineKind::Reply(Fate::Delivered),
    LineKind::Request(Fate::Lost),
    LineKind::Reply(Fate::Lost),
    LineKind::Request(Fate::Repeated),
    LineKind::Reply(Fate::Repeated),
    LineKind::Request(Fate::Told),
    LineKind::Reply(Fate::Told),
    LineKind::Last,
];

/// Returns the words of a kind of lines, without the space before its first field.
pub fn words_of(kind: LineKind) -> &'static str {
    let words = kind.words();
    words.strip_suffix(" ").unwrap_or(words)
}

/// Returns which of these kinds the words of a line have, and its fields, or `None` if nothing follows the words.
pub fn kind_of<'a>(kinds: &[LineKind], line: &'a [u8]) -> Option<(LineKind, Option<&'a [u8]>)> {
    for kind in kinds {
        match line.strip_prefix(words_of(*kind).as_bytes()) {
            Some([]) => return Some((*kind, None)),
            Some([b' ', fields @ ..]) => return Some((*kind, Some(fields))),
            _ => {}
        }
    }
    None
}

/// Returns the version that the first line of a text names, or `None` if it does not name one.
pub fn version_of(text: &[u8]) -> Option<Version> {
    if text.starts_with(LineKind::First(Version::One).words().as_bytes()) {
        Some(Version::One)
    } else if text.starts_with(LineKind::First(Version::Two).words().as_bytes()) {
        Some(Version::Two)
    } else if text.starts_with(LineKind::First(Version::Three).words().as_bytes()) {
        let (first, _) = cut(text, b'\n');
        Some(if first.ends_with(SENDS) {
            Version::ThreeWithSends
        } else {
            Version::Three
        })
    } else {
        None
    }
}
