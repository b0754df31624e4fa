//! Which of several calls fails.

/// Which call fails: the kth from now on, counted from 1; with 0 none does.
#[derive(Clone, Copy)]
pub(crate) struct Countdown(u64);

impl Countdown {
    /// The call of this number fails, counted from 1; with 0 none does.
    pub(crate) fn to(call: u64) -> Self {
        Countdown(call)
    }

    /// Counts one more call, and returns whether it is the one that fails.
    pub(crate) fn ends(&mut self) -> bool {
        let now = self.0 == 1;
        self.0 = self.0.saturating_sub(1);
        now
    }
}
