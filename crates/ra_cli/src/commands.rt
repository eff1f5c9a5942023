//! Each command, in its own file, and what some of them share: the text of a script, the trace of a run, and the lines
//! that they print.
pub mod all_lines_command;
pub mod answer_command;
pub mod check_command;
pub mod cluster_command;
pub mod draw_command;
pub mod follow_command;
pub mod marks_verdict_lines;
pub mod node_command;
pub mod run_trace;
pub mod script_input;
pub mod settle_command;
pub mod sim_command;
pub mod survey_command;
pub mod survey_text;
pub mod verdict_lines;
pub mod wrong_lines_text;
