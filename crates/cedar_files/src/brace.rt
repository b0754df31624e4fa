//! What the first bytes of JSON are.
ghost use Rattle.std.specs.Prelude.{◌≡◌};
ghost use Rattle.cedar_parser.specs.Braces.{begins_with_brace, is_json_white};

/// Whether the first byte that is not white space of JSON is `{` (RFC 8259, section 2).
pub(crate) fn begins_with_brace(bytes: &[u8]) -> bool
    ensures { result ≡ begins_with_brace bytes.now }
{
    let mut rest = bytes;
    'walk: while let Some((byte, others)) = rest.split_first() {
        if !is_json_white(*byte) {
            return *byte == b'{';
        }
        rest = others;
    }
    false
}

fn is_json_white(byte: u8) -> bool
    ensures { result ≡ is_json_white byte }
{
    byte == 32 || byte == 9 || byte == 10 || byte == 13
}
