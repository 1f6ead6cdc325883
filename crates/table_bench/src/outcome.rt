//! What came of a run.

/// What came of a run.
#[derive(Clone, Copy, Debug)]
pub struct Outcome {
    /// How many steps were done.
    pub steps: usize,
    /// How many came to what they should.
    pub right: usize,
}
