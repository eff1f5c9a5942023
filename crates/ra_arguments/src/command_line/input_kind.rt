/// What an input is to be.
#[derive(Clone, Copy)]
pub enum InputKind {
    /// The trace of a run.
    Trace,
    /// A mark log.
    Marks,
}
