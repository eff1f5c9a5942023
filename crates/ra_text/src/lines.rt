//! Lines as texts of their own.
ghost use Rattle.std.specs.Prelude.{◌≡◌, string_bytes, IfOk};
ghost use Rattle.ra_text.specs.Lines as spec;

use crate::draft::Draft;
use ra_stamp::{Mark, Memory};
use std::alloc::Global;

/// Returns the line of a mark, its line feed at the end, in time linear in it.
///
/// # Errors
///
/// `Memory`: there is none for the line.
pub fn mark_line(alloc: Global, mark: &Mark) -> Result<String, Memory>
    ensures { IfOk result (λ line. string_bytes line ≡ spec.mark_line mark.now) }
{
    let mut line = Draft::new(alloc);
    line.push_mark_line(mark);
    line.finish()
}
