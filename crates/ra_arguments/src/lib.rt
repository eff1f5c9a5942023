//! What the arguments of a command line ask for, or the first cause why they ask for nothing.
#![tactic(auto)]

mod cluster_output;
mod command;
mod command_line;
mod file_words;
mod form;
mod laws;
mod lone_command;
mod policy;
mod settle_arguments;
mod usage_fault;

pub use cluster_output::ClusterOutput;
pub use command::{Command, CommandLine, command_of, read_command_line};
pub use command_line::command_rows::{command_named, command_near};
pub use command_line::helps::{
    ANSWER_HELP, CHECK_HELP, CLUSTER_HELP, DRAW_HELP, NODE_HELP, SETTLE_HELP, SIM_HELP,
    STATUS_HELP, SUMMARY_HELP,
};
pub use command_line::input_kind::InputKind;
pub use command_line::option_rows::{OptionRow, sim_options, values_of};
pub use command_line::search::{Search, SurveyTask};
pub use command_line::{CommandFault, PolicyName, Task};
pub use file_words::{CommandWords, sort_words};
pub use form::Form;
pub use laws::{arguments_ask_for_one_command, surveyed_seeds_are_in_order};
pub use policy::policy_of;
pub use settle_arguments::{SettleOutput, SettleTask};
pub use usage_fault::{UsageCause, UsageFault};
