/// The seeds from the first to the last, both included. There are none if the last is below the first.
#[derive(Clone, Copy)]
pub struct SeedRange {
    pub first: u64,
    pub last: u64,
}
