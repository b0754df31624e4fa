//! What an explanation is to say.

/// How much is said, and in which form.
#[derive(Clone, Copy, Debug, PartialEq, Eq)]
pub struct WhyOptions {
    /// Each policy that is false by its scope is shown. Otherwise they are counted.
    pub all: bool,
    /// One JSON object a line is written, for programs. Otherwise it is text for a person.
    pub json: bool,
}
