/// In which form results are printed.
#[derive(Clone, Copy)]
pub enum Form {
    /// Lines of words.
    Words,
    /// JSON objects, one a line.
    Json,
}
