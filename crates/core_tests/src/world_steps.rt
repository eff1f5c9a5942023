//! How worlds go on, step by step, and what they show.
pub mod alike_worlds;
pub mod report_totals;
pub mod world_asserting;
pub mod world_calls;
pub mod world_words;
pub mod worlds;
