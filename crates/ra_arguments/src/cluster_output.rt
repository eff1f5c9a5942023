/// What `ra cluster` prints of the run that threads made.
#[derive(Clone, Copy)]
pub enum ClusterOutput {
    /// The lines of its report.
    Lines,
    /// Its trace.
    Trace,
    /// The books of the nodes, which settle into it.
    Books,
}
