//! The questions about the scopes of policies.
use cedar_value::{Name, Uid};

/// A question about the scope of a policy.
#[derive(Clone, Copy)]
pub(crate) enum Question<'a> {
    /// Whether it leaves the action open.
    AnyAction,
    /// Whether it requires some action.
    SomeAction,
    /// Whether the action is what it requires.
    Action(&'a Uid),
    /// Whether a principal of the type may be what it requires.
    Principal(&'a Name),
    /// Whether a resource of the type may be what it requires.
    Resource(&'a Name),
}
