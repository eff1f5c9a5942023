/// Which text is made of a run.
#[derive(Clone, Copy)]
pub enum OutputKind {
    /// The lines of its report.
    Lines,
    /// Its trace.
    Trace,
    /// Its trace, with the messages that each step sends.
    TraceWithSends,
    /// The choices with which the policy `listed` makes it again: their words on one line.
    Choices,
    /// If it is stuck, the choices of the least run that is found by leaving out one step after the other, and
    /// otherwise the word `none`.
    Shrunk,
    /// The lines of the state at its end.
    State,
}
