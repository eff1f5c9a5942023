//! Auditors, which put what happens at books into one run.
pub mod audit_acts;
pub mod audited_clusters;
pub mod audits;
pub mod audits_of_locks;
pub mod frame_clocks;
pub mod lost_frames;
pub mod rounds_of_audits;
