//! The line of a text around an offset.

/// What is before an offset, in bytes from 0, in its line; and nothing if the offset is inside a character or past the end.
/// Takes no memory.
pub fn line_before(text: &str, at: usize) -> &str {
    let Some(before) = text.get(..at) else {
        return "";
    };
    match before.rsplit_once('\n') {
        Some((_, line)) => line,
        None => before,
    }
}

/// What is from an offset on, in bytes from 0, in its line, without the carriage return at the end of a line of CRLF; and nothing if
/// the offset is inside a character or past the end. Takes no memory.
pub fn line_from(text: &str, at: usize) -> &str {
    let Some(after) = text.get(at..) else {
        return "";
    };
    let line = match after.split_once('\n') {
        Some((line, _)) => line,
        None => after,
    };
    line.strip_suffix('\r').unwrap_or(line)
}
