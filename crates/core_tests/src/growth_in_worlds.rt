//! What calls answer and change if a growth of memory is refused.
pub mod growth_of_worlds;
