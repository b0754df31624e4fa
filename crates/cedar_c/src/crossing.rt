//! That a handle may go to another thread.
use crate::handle::Handle;

// Whatever may be sent to another thread.
fn crosses<T: Send>(_value: &T) {}

/// A handle may be sent to another thread. A law: it runs no code. The compiler refuses it where a part of an engine counts its
/// holders without atomic numbers.
pub fn handle_crosses(handle: &Handle) {
    crosses(handle);
}
