//! Scripts and choices as they are read, and choices as they are written.
pub mod choice_words;
pub mod script_clients;
pub mod written_choices;
