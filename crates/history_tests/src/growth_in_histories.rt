//! What calls answer and change if a growth of memory is refused in a book, a settling or an audit.
pub mod growth_of_auditors;
pub mod growth_of_books;
pub mod growth_of_losses;
pub mod growth_of_rounds;
pub mod growth_of_settling;
