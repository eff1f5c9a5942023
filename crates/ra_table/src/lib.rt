//! The lock table, which is what a user of the cluster believes in. Entries wait, hold, and have been granted. It knows
//! no messages, REPLYs, deferrals or queues.
#![tactic(auto)]

mod entry_lists;
mod error;
mod laws;
mod name_table;
mod table;

pub use entry_lists::excludes;
pub use error::{EnterError, LeaveError, RequestError, WithdrawError};
pub use laws::{
    conflicting_entries_never_hold_at_once, granted_entries_have_entered,
    grants_come_in_stamp_order, holders_were_requested_and_entered_and_have_not_left,
    runs_go_on_by_steps, steps_exist_where_they_are_allowed,
    tables_of_one_run_have_the_same_entries, waiting_entries_were_requested_and_have_not_entered,
};
pub use table::Table;
