//! Pictures of runs: a space-time diagram of a trace, or the bars of a mark log, as one SVG file.
//!
//! `draw_trace` and `draw_log` judge a text that `draw_text` reads. What happens in it is a `timeline`, the `layout`
//! says where each part is on the page, and `svg` writes it.
#![tactic(auto)]

mod draw_log;
mod draw_text;
mod draw_trace;
mod error;
mod laws;
mod layout;
mod svg;
mod timeline;

pub use draw_log::draw_marks;
pub use draw_trace::draw;
pub use error::DrawError;
pub use laws::each_text_has_one_list_of_lines;
pub use ra_text::Part;
