//! Lists of marks that have room for what will come.
ghost use Rattle.std.specs.Prelude.{◌≡◌, ◌+◌, ◌≤◌, ◌++◌, ◌∷◌, [], IfOk};
ghost use Rattle.ra_node.specs.Turns.{request_marks};

use ra_stamp::{Entry, Mark, Marks, Memory};
use std::alloc::Global;

/// Adds a mark if there is room for it.
pub fn push_reserved(marks: &mut Marks, mark: Mark)
    requires { 1 ≤ marks.old.spare }
    ensures items { marks.new.items ≡ marks.old.items ++ mark ∷ [] }
    ensures spare { marks.new.spare + 1 ≡ marks.old.spare }
{
    marks.push(mark).unwrap();
}

/// Adds the marks of a request that is made, and granted at once or not.
pub fn push_request(marks: &mut Marks, entry: &Entry, entered: bool)
    requires { 2 ≤ marks.old.spare }
    ensures { marks.new.items ≡ marks.old.items ++ request_marks entered entry.now }
{
    push_reserved(marks, Mark::Requested(*entry));
    if entered {
        push_reserved(marks, Mark::Entered(*entry));
    }
}

/// Makes an empty list of marks with room for this many.
///
/// # Errors
///
/// `Memory`: memory ran out.
pub fn marks_for(alloc: Global, room: u64) -> Result<Marks, Memory>
    ensures { IfOk result (λ marks. (marks.items ≡ []) × (room ≤ marks.spare)) }
{
    let mut marks = Marks::new(alloc);
    marks.reserve(room)?;
    Ok(marks)
}
