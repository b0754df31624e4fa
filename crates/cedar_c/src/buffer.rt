//! Buffers that C lends.
ghost use Rattle.std.specs.Prelude.{◌≡◌, ◌≢◌, ◌≤◌, length};
ghost use Rattle.cedar_c.specs.Buffers.{IsGiven, IsTooLong};

use crate::status::{OK, ROOM};

/// Copies a text to the front of a buffer that has room for it, and leaves the rest. Otherwise the buffer is as before. Either way it
/// says how long the text is.
pub(crate) fn give(text: &[u8], out: &mut [u8], written: &mut usize) -> u32
    ensures given { IsGiven text.now out.old out.new written.new }
    ensures ok { result ≡ 0 → length text.now ≤ length out.old }
    ensures fits { result ≡ 0 → written.new ≤ length out.old }
    ensures room { result ≢ 0 → (result ≡ 6) × IsTooLong text.now out.old written.new }
    ensures too_long { result ≡ 6 → IsTooLong text.now out.old written.new }
{
    *written = text.len();
    if text.len() > out.len() {
        return ROOM;
    }
    let (front, _) = out.split_at_mut(text.len());
    front.copy_from_slice(text);
    OK
}
