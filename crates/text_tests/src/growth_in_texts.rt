//! What calls answer and change if a growth of memory is refused. `cases/` has what commands do then.
pub mod growth_of_written_books;
