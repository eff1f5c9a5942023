/// What is written of a script's run.
#[derive(Drop)]
pub struct Printed {
    /// The text.
    pub text: String,
    /// Whether the run is finished: every operation is done, and nothing waits, is queued or under way.
    pub finished: bool,
}
