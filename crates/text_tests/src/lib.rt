//! Tests of `ra_trace`, `ra_draw`, `ra_script`, `ra_explain`, `ra_book_text`, `ra_notes` and `ra_cli` through their
//! public calls, of what no command shows. The tables of `cases/` have what commands print.
#![tactic(auto)]

#[cfg(test)]
mod book_tests;
#[cfg(test)]
mod cli_calls;
#[cfg(test)]
mod growth_in_texts;
#[cfg(test)]
mod note_tests;
#[cfg(test)]
mod pictures;
#[cfg(test)]
mod script_texts;
#[cfg(test)]
mod shared_texts;
#[cfg(test)]
mod text_asserting;
#[cfg(test)]
mod text_words;
#[cfg(test)]
mod trace_tests;
