//! How a whole execution went.
use cedar_code::Outcome;

/// How a whole execution went.
#[derive(Drop)]
pub struct Run {
    /// How it ended.
    pub outcome: Outcome,
    /// How many instructions were executed; one that errs counts.
    pub executed: u32,
}
