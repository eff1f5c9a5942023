//! The texts of scripts. A script is performed from its text to the lines of its report, to its trace, to its choices,
//! to the choices that a stuck run is shrunk to, or to the state at its end. [`perform_as`] says what each costs. A
//! script can also be performed with many seeds, up to the first run that ends as wanted.
#![tactic(auto)]

mod error;
mod laws;
mod output_kind;
mod performing;
mod script_reading;

pub use error::{PerformError, ScriptError};
pub use laws::{choices_have_words_unless_messages_are_repeated, read_scripts_come_to_rest};
pub use output_kind::OutputKind;
pub use performing::find_run::find_run;
pub use performing::printed::Printed;
pub use performing::{MAX_TURNS, perform, perform_as, perform_trace};
pub use script_reading::document::{ClientRef, DocumentRef, client_of, document_of};
pub use script_reading::{MAX_SCRIPT, add_op, read_script};
