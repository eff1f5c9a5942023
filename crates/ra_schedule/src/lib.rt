//! Scripts of what clients do, as data, and policies that drive a cluster through them.
#![tactic(auto)]

mod choice;
mod driver;
mod error;
mod laws;
mod script;
mod surveys;

pub use choice::choices_reading::read_choices;
pub use choice::choices_spelling::choices_text;
pub use choice::faults::Faults;
pub use choice::{Choice, Choices, Policy};
pub use driver::drive_script::{Recording, Summary, drive, summarize};
pub use driver::showing::{Shown, show};
pub use driver::shrinking::{Shrunk, shrink};
pub use driver::until_refused::{DrivenPart, drive_until_refused};
pub use error::{AddClientError, AddOpError, ChoicesError, DriveError, NewScriptError};
pub use laws::finishing::{
    clients_in_order_never_deadlock, finished_scripts_granted_each_lock, ordered_scripts_finish,
    policies_bring_scripts_to_rest, scripts_come_to_rest, seeds_finish_ordered_scripts,
};
pub use laws::{policies_lead_to_one_run, policies_repeat_no_message};
pub use script::lock_order::{
    OutOfOrder, Unreleased, first_out_of_order, first_unreleased, is_unreleased,
};
pub use script::{Op, Script};
pub use surveys::chances::Chances;
pub use surveys::first_seed::{Ending, first_seed};
pub use surveys::observer::Observer;
pub use surveys::seed_outcomes::{RunCost, SeedOutcome, Spread, Survey, Tally};
pub use surveys::seed_range::SeedRange;
pub use surveys::{chance, survey};
