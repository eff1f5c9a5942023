//! The clients of a host, as a pure machine: which names each holds or waits for, since when, and until when it waits.
//! `ClientTables` keeps them.
#![tactic(auto)]

mod clients;
mod laws;
mod limits;
mod numbers;
mod results;
mod roster;
mod table;
mod times;
mod uses;

pub use clients::ClientTables;
pub use laws::{
    clients_keep_within_their_limit, no_name_is_lost, refusals_change_nothing,
    the_node_of_a_host_keeps_what_its_clients_hold, unlocked_is_the_last_answer,
    what_is_told_is_held, who_holds_a_name_holds_it_by_the_node, who_is_gone_gives_all_back,
};
pub use limits::Limits;
pub use results::{GivenBack, GivenUp, Lock, Told, Unlock};
pub use uses::{NameUse, Standing};
