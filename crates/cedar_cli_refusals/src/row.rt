//! A row of the page on refusals.

/// What the page says of a number, once for each file or call that is refused with it.
#[derive(Clone, Copy)]
pub(crate) struct Row {
    /// The number.
    pub(crate) number: u16,
    /// What is refused.
    pub(crate) refused: &'static str,
    /// When it comes; `the same` as in the row before.
    pub(crate) when: &'static str,
    /// An example; perhaps nothing.
    pub(crate) example: &'static str,
    /// What to do; `as above` is in the row before.
    pub(crate) remedy: &'static str,
}
