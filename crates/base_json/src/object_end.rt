//! Where an object ends, found without reading what it holds.
ghost use Rattle.std.specs.Prelude.{◌≡◌, ◌-◌, ◌<◌, ◌≤◌, ◌||◌, length, take, slice_index, IfSome};
ghost use Rattle.json.specs.Lex.{between, in_word, in_string, class};
ghost use Rattle.json.specs.Word.{is_operator, is_space};
ghost use Rattle.base_json.specs.Private.Modes.{mode_next, mode_behind, mode_of, is_between};

// The state of the lexer of JSON between two bytes.
#[derive(Clone, Copy, Drop)]
enum Mode {
    Between,
    InWord,
    InString,
    InEscape,
}

/// The position at which the object that begins the bytes ends: after the brace that closes as many braces as were opened.
/// Braces inside strings do not count. No string and no word goes on after that position.
pub(crate) fn object_end(bytes: &[u8]) -> Option<usize>
    ensures within { IfSome result (λ end. (0 < end) × (end ≤ length bytes.now)) }
    ensures closes { IfSome result (λ end. slice_index bytes.now (end - 1) ≡ 125) }
    ensures mode { IfSome result (λ end. mode_behind between (take end bytes.now) ≡ between) }
{
    if bytes.is_empty() || bytes[0] != b'{' {
        return None;
    }
    let mut mode = Mode::Between;
    let mut depth: usize = 0;
    for (i, byte) in bytes.iter().enumerate() {
        mode = next_mode(mode, *byte);
        if stands_alone(mode) {
            if *byte == b'{' {
                depth += 1;
            } else if *byte == b'}' {
                if depth <= 1 {
                    return Some(i + 1);
                }
                depth -= 1;
            }
        }
    }
    None
}

// Whether neither a string nor a word goes on.
fn stands_alone(mode: Mode) -> bool
    ensures { result ≡ is_between (mode_of mode) }
{
    matches!(mode, Mode::Between)
}

fn next_mode(mode: Mode, byte: u8) -> Mode
    ensures { mode_of result ≡ mode_next (mode_of mode) (class byte) }
{
    match mode {
        Mode::Between => next_between(byte),
        Mode::InWord => next_in_word(byte),
        Mode::InString => next_in_string(byte),
        Mode::InEscape => Mode::InString,
    }
}

fn next_between(byte: u8) -> Mode
    ensures { mode_of result ≡ mode_next between (class byte) }
{
    if byte == b'"' {
        Mode::InString
    } else {
        next_in_word(byte)
    }
}

fn next_in_word(byte: u8) -> Mode
    ensures { mode_of result ≡ mode_next in_word (class byte) }
{
    if ends_word(byte) {
        Mode::Between
    } else {
        Mode::InWord
    }
}

fn next_in_string(byte: u8) -> Mode
    ensures { mode_of result ≡ mode_next in_string (class byte) }
{
    if byte == b'"' {
        Mode::Between
    } else if byte == b'\\' {
        Mode::InEscape
    } else {
        Mode::InString
    }
}

fn ends_word(byte: u8) -> bool
    ensures { result ≡ (is_operator byte || is_space byte) }
{
    is_operator(byte) || is_space(byte)
}

fn is_operator(byte: u8) -> bool
    ensures { result ≡ is_operator byte }
{
    (byte == b'{')
        | (byte == b'}')
        | (byte == b'[')
        | (byte == b']')
        | (byte == b':')
        | (byte == b',')
}

/// Whether the byte is a space of JSON (RFC 8259, section 2).
pub(crate) fn is_space(byte: u8) -> bool
    ensures { result ≡ is_space byte }
{
    (byte == b' ') | (byte == b'\t') | (byte == b'\n') | (byte == b'\r')
}
