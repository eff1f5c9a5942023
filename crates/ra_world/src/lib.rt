//! What a run of the cluster is, what holds of every run, and a cluster in one thread that makes such runs. Also the
//! lines in which its report and its state are printed.
#![tactic(auto)]

mod error;
mod laws;
mod step;
mod text;
mod world;

pub use error::{NewError, NodeRefusal, RunError, StepError};
pub use laws::fairness::{each_other_node_overtakes_at_most_once, one_request_may_overtake};
pub use laws::fitting::{steps_that_fit_together_are_runs, steps_that_fit_with_copies_are_runs};
pub use laws::{
    asks_make_requests_or_are_queued, marks_of_runs_are_numbered, marks_of_runs_are_table_runs,
    messages_of_runs_are_different, messages_under_way_are_between_nodes,
    no_delivered_reply_is_a_stray, numbers_rise_at_most_by_the_requests, prefixes_of_runs_are_runs,
    quiet_runs_sent_two_messages_for_each_request_and_other_node, runs_are_determined,
    runs_go_on_by_events, runs_go_on_where_steps_are_allowed,
    runs_send_at_most_two_messages_for_each_request_and_other_node, steps_elsewhere_leave_a_node,
    tables_of_runs_are_those_of_their_nodes, two_nodes_never_hold_in_conflict,
    waiting_requests_are_blocked_in_quiet_runs, withdrawn_requests_never_return,
};
// A caller of `report_text` also finds here the calls that print the rest of a run.
pub use ra_text::{WriteFault, mark_line, write_out};
pub use step::{Step, Steps};
pub use text::lines::report_text;
pub use text::report::Report;
pub use world::run_steps::run;
pub use world::{MarklessWorld, World, WorldOf};
