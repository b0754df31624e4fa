//! The place that explains a fault at another place: an open bracket, or a missing `;`.
use crate::around::Around;
use crate::expected::Expected;
use crate::explain::SecondPlace;
use crate::piece::Piece;

/// What the mark at an open bracket says.
const OPEN: &str = "this bracket is still open";

/// Whether a declaration or a namespace begins with a piece.
pub(crate) fn begins_declaration(piece: Piece<'_>) -> bool {
    matches!(piece.text, "entity" | "action" | "type" | "namespace" | "@")
}

/// Whether what is at the place shows that the innermost bracket has not been closed: a closing bracket of another kind, the end of the
/// text or of the declaration, or a `:` in a list.
pub(crate) fn leaves_open(around: Around<'_>) -> bool {
    let (Some(open), Some(here)) = (around.open, around.here) else {
        return around.open.is_some();
    };
    match here.text {
        ")" => open.text != "(",
        "}" => open.text != "{",
        "]" => open.text != "[",
        ">" => open.text != "<",
        ":" => open.text == "[",
        ";" => around
            .next
            .is_none_or(|next| !next.is_name() || begins_declaration(next)),
        _ => false,
    }
}

/// The place that explains what is at a place where it is not allowed, if there is one.
pub(crate) fn second_place(around: Around<'_>, expected: &Expected) -> Option<SecondPlace> {
    if let Some(open) = around.open {
        return leaves_open(around).then_some(SecondPlace {
            at: open.start,
            says: OPEN,
        });
    }
    if lacks_end(around, expected) {
        return Some(SecondPlace {
            at: around.end(),
            says: "a `;` is missing here",
        });
    }
    match (around.here, around.namespace) {
        (None, Some(brace)) if around.keyword.is_none() => Some(SecondPlace {
            at: brace.start,
            says: OPEN,
        }),
        _ => None,
    }
}

/// Whether a declaration lacks its `;`.
pub(crate) fn lacks_end(around: Around<'_>, expected: &Expected) -> bool {
    expected.allows(";")
        && around.open.is_none()
        && around
            .here
            .is_none_or(|here| here.text == "}" || begins_declaration(here))
}
