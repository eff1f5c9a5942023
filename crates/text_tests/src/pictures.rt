//! Pictures of traces: what is in parts that no command draws. `cases/` has the rest.
use crate::shared_texts::ONE_LOCK;
use crate::text_asserting::{assert_same, fail};
use ra_draw::{DrawError, Part, draw};
use ra_trace::Verdict;
use std::alloc::Global;
use std::io::{Read, Write};
use std::process::Abort;
use test_support::{part, row};

/// A trace, a part of it, and how often some words occur in the picture of that.
#[derive(Clone, Copy)]
struct Row(&'static str, Part, &'static [(&'static str, u64)]);

/// The lines from one to another.
const fn lines(from: u64, to: u64) -> Part {
    Part { from, to }
}

/// Returns how often the words occur in a text.
fn count_in(text: &str, words: &str) -> u64 {
    let bytes = text.as_bytes();
    let mut count = 0u64;
    for place in 0..bytes.len() {
        if bytes[place..].starts_with(words.as_bytes()) {
            count = count.saturating_add(1);
        }
    }
    count
}

/// Draws a part of the trace that a reader gives.
fn drawn_to<R: Read, W: Write>(
    alloc: Global,
    reader: &mut R,
    writer: &mut W,
    part: Part,
) -> Result<Verdict, DrawError> {
    draw(alloc, reader, writer, part, &mut Vec::new(alloc))
}

/// Returns the picture of a part of a trace.
fn picture_of(alloc: Global, trace: &[u8], part: Part) -> Option<String> {
    let mut reader = trace;
    let mut picture = Vec::new(alloc);
    match drawn_to(alloc, &mut reader, &mut picture, part) {
        Ok(Verdict::Valid { .. }) => String::from_utf8(picture).ok(),
        _ => None,
    }
}

/// Asserts that each of these words is in a picture as often as its row says.
fn assert_has(rt: &impl Abort, picture: &str, words: &[(&str, u64)]) {
    for (word, count) in words {
        let at = part("how often a picture has", word);
        assert_same(rt, at, &count_in(picture, word), count);
    }
}

/// What is in each picture, which is one element without a script or another file.
const IN_EACH: &[(&str, u64)] = &[
    ("<svg", 1),
    ("</svg>", 1),
    ("<script", 0),
    ("href", 0),
    ("url(http", 0),
];

/// How each picture begins.
const BEGINS: &str = "<svg xmlns=\"http://www.w3.org/2000/svg\" ";

/// How each picture ends.
const ENDS: &str = "</svg>\n";

/// Asserts that a picture has these words so often, and is one element without a script or another file.
fn assert_picture(rt: &impl Abort, picture: Option<String>, words: &[(&str, u64)]) {
    let Some(picture) = picture else {
        fail(rt, "expected a picture, and none came");
    };
    let text = picture.as_str();
    let (start, end) = (text.get(..BEGINS.len()), text.len().checked_sub(ENDS.len()));
    assert_same(rt, row("the start of a picture"), &start, &Some(BEGINS));
    let end = text.get(end.unwrap_or(0)..);
    assert_same(rt, row("the end of a picture"), &end, &Some(ENDS));
    assert_has(rt, text, IN_EACH);
    assert_has(rt, text, words);
}

/// Asserts that each row of a trace is so.
fn assert_pictures(rt: &(impl Abort + AllocGlobal), rows: &[Row]) {
    for row in rows {
        let picture = picture_of(rt.alloc(), row.0.as_bytes(), row.1);
        assert_picture(rt, picture, row.2);
    }
}

/// No command draws such parts: `--from 0` and a first line after the last one are no options.
#[test]
fn a_part_may_begin_at_0_but_not_after_its_end(rt: HostRuntime) {
    let rows = [Row(
        ONE_LOCK,
        lines(0, 2),
        &[(" asks for ", 1), (", still under way</title>", 1)],
    )];
    assert_pictures(&rt, &rows);
    let mut reader = ONE_LOCK.as_bytes();
    let mut picture = Vec::new(rt.alloc());
    let came = drawn_to(rt.alloc(), &mut reader, &mut picture, lines(20, 10));
    let no_lines = Err(DrawError::NoLines { lines: 9 });
    assert_same(&rt, row("what came"), &came, &no_lines);
}
