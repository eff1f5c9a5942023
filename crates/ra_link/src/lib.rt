//! The link between two hosts: what they say to each other so that frames are taken once and in order, over crashes.
//!
//! It is counts alone, and does nothing by itself: a host tells it what it hears and does, and asks it what to say.
#![tactic(auto)]

mod error;
mod laws;
mod link;
mod message;

pub use error::{MakeError, OldBook};
pub use laws::{
    a_book_that_lacks_taken_frames_is_found_out, a_host_that_was_ready_lacks_nothing,
    a_host_whose_own_book_is_whole_is_not_accused, a_ready_host_is_not_accused,
    a_ready_host_lacks_nothing, a_ready_host_passes_old_over, acknowledged_frames_are_on_the_disk,
    counts_are_true, frames_are_taken_once_and_in_order, no_old_is_said_of_whole_books,
    nothing_is_under_way_when_all_is_acknowledged, two_rounds_leave_nothing_under_way,
    two_rounds_settle_or_find_out, what_is_known_of_a_running_start_is_on_its_disk,
    whole_books_are_not_accused,
};
pub use link::{Heard, Link};
pub use message::Message;
