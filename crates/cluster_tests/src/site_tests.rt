//! Sites, and the post between them.
pub mod ends_of_times;
pub mod refused_endings;
pub mod site_cluster;
pub mod site_ends;
pub mod site_steps;
pub mod sites_and_posts;
pub mod waiting_clients;
