//! Tests of `ra_site` and `ra_cluster` through their public calls: sites, clients that wait at a site, whole clusters,
//! and scripts that threads run. Books by themselves and audits are tested in `history_tests`, so that both are proved
//! side by side.
#![tactic(auto)]

#[cfg(test)]
mod growth_in_clusters;
#[cfg(test)]
mod site_tests;
#[cfg(test)]
mod thread_scripts;
#[cfg(test)]
mod whole_clusters;
