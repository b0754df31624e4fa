//! That what is ready may be shared by threads.
use crate::ready::Ready;
use crate::validated::Validated;

// Whatever may be sent to another thread, and lent to several.
fn crosses<T: Send + Sync>(_value: &T) {}

/// Policies that are accepted, with their schema and codes, may be sent to another thread, and lent to several. A law: it runs no
/// code. The compiler refuses it where a part counts its holders without atomic numbers.
pub fn validated_crosses(validated: &Validated) {
    crosses(validated);
}

/// What is ready may be sent to another thread, and lent to several, as a whole. A law: it runs no code. The compiler refuses it
/// where a part counts its holders without atomic numbers.
pub fn ready_crosses(ready: &Ready) {
    crosses(ready);
}
