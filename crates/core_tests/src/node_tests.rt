//! Calls of automata and nodes that no command makes. What a node answers to the lines of a book is in
//! `cases/nodes.toml` and `cases/test_node.py`.
pub mod automaton_calls;
pub mod node_answers;
pub mod node_refusals;
