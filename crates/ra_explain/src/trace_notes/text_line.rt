//! The line of a text that is wrong.
use ra_text::cut;
use ra_trace::MAX_LINE;

/// A line of a text.
#[derive(Clone, Copy)]
pub struct TextLine<'a> {
    /// Its number, counted from 1.
    pub number: u64,
    /// The lines before it.
    pub before: &'a [u8],
    /// What a checker reads of it, without its line feed. There is nothing if the text ends before it.
    pub bytes: &'a [u8],
    /// Whether a checker reads its line feed.
    pub has_feed: bool,
    /// Whether the line before it is `end`.
    pub is_after_end: bool,
}

impl<'a> TextLine<'a> {
    /// Returns the line of a text with this number, counted from 1. The cost is linear in the text up to there.
    pub fn at(text: &'a [u8], number: u64) -> TextLine<'a> {
        // What the text has from the line on, or from its last line on if it ends before, and the line before that.
        let (mut rest, mut last) = (text, text);
        for _ in 1..number {
            let (line, Some(after)) = cut(rest, b'\n') else {
                break;
            };
            last = line;
            rest = after;
        }
        let (bytes, after) = cut(&rest[..rest.len().min(MAX_LINE)], b'\n');
        TextLine {
            number,
            before: &text[..text.len().saturating_sub(rest.len())],
            bytes,
            has_feed: after.is_some(),
            is_after_end: number > 1 && last == b"end".as_slice(),
        }
    }
}
