//! Tests of `ra_stamp`, `ra_frame`, `ra_automaton`, `ra_disk`, `ra_node`, `ra_bag`, `ra_table`, `ra_world` and
//! `ra_schedule` through their public calls.
#![tactic(auto)]

#[cfg(test)]
mod core_asserting;
#[cfg(test)]
mod growth_in_core;
#[cfg(test)]
mod growth_in_worlds;
#[cfg(test)]
mod node_tests;
#[cfg(test)]
mod run_tests;
#[cfg(test)]
mod script_tests;
#[cfg(test)]
mod value_tests;
#[cfg(test)]
mod world_steps;
