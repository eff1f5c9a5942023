//! What calls answer and change if a growth of memory is refused in a site, a post or a cluster.
pub mod growth_of_clusters;
pub mod growth_of_sites;
