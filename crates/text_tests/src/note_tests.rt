//! What a note tells a person.
pub mod asked_notes;
pub mod explained_texts;
pub mod kept_notes;
