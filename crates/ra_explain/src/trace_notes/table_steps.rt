//! What a lock table says of a mark of a trace.
use ra_stamp::Mark;
use ra_table::Table;
use ra_text::cut;
use ra_trace::{Line, MarkCause, try_mark};
use std::alloc::Global;

/// Returns why a lock table refuses a mark after these lines of a trace. It takes all their marks. Returns `None` if it
/// takes this one, too, or if memory runs out. The cost is that of the marks.
pub fn refusal_after(alloc: Global, lines: &[u8], mark: &Mark) -> Option<MarkCause> {
    let mut table = Table::new(alloc).ok()?;
    let (mut rest, mut is_whole) = (lines, true);
    for _ in 0..u64::MAX {
        let (line, Some(after)) = cut(rest, b'\n') else {
            break;
        };
        if let Some(Line::Marked(made)) = &Line::parse(line) {
            is_whole = is_whole && try_mark(&mut table, made).is_ok();
        }
        rest = after;
    }
    match try_mark(&mut table, mark) {
        Ok(cause) if is_whole => cause,
        _ => None,
    }
}
