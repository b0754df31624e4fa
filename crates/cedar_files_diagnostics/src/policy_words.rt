//! Words for the faults of policy texts.
use cedar_ext::Language;
use cedar_parser_tokens::ParseFault;
use cedar_text::TextFault;

/// Why a policy text is refused, in a few words without the place.
pub fn reason_of(fault: ParseFault) -> &'static str {
    match fault {
        ParseFault::OutOfMemory => "out of memory",
        ParseFault::Text(fault) => reason_of_text(fault),
        ParseFault::NumberTooLarge(_) => "a number is above 9223372036854775807",
        ParseFault::EscapedStar(_) => "the escape `\\*` is outside a pattern of `like`",
        ParseFault::Syntax(_) => "the policy text has a syntax error",
        ParseFault::TooDeep(_) => "more than 100 brackets and `if`s are open",
        ParseFault::TooHigh(_) => "a condition is nested deeper than 2,000 nodes",
        ParseFault::DuplicateKey(_) => "a record has the same key twice",
        ParseFault::DuplicateId(_) => "two statements have the same id",
        ParseFault::UnknownFunction(_) => "unknown function or method",
        ParseFault::Arity(_) => "wrong number of arguments",
        ParseFault::SlotMisplaced(_) => "a slot is not allowed here",
        ParseFault::DuplicateAnnotation(_) => "a statement has the same annotation twice",
        ParseFault::TooLarge(_) => "a condition has more than 100,000 nodes",
    }
}

fn reason_of_text(fault: TextFault) -> &'static str {
    match fault {
        TextFault::OutOfMemory => "out of memory",
        TextFault::BadCharacter(_) => "unexpected character",
        TextFault::UnclosedString(_) => "a string is not closed",
        TextFault::BadEscape(_) => "unknown escape in a string",
        TextFault::NumberTooLarge(_) => "a number is above 9223372036854775808",
    }
}

/// What the mark at the place of the fault says.
pub fn mark_of(fault: ParseFault) -> &'static str {
    match fault {
        ParseFault::Text(TextFault::UnclosedString(_)) =>
            "the string that begins here is not closed",
        ParseFault::Text(TextFault::BadEscape(_)) => "unknown escape",
        ParseFault::Text(TextFault::NumberTooLarge(_)) | ParseFault::NumberTooLarge(_) => {
            "this number is too large"
        }
        ParseFault::TooHigh(_) | ParseFault::TooLarge(_) => "in the statement that begins here",
        ParseFault::DuplicateKey(_) => "this key is already in the record",
        ParseFault::DuplicateId(_) =>
            "an earlier statement has the same id as the one that begins here",
        ParseFault::DuplicateAnnotation(_) => "this annotation is repeated",
        ParseFault::TooDeep(_) => "the bracket or `if` that is one too many",
        _ => "",
    }
}

/// What to do about it in a language, if one thing is likely.
pub fn hint_of(language: Language, fault: ParseFault) -> Option<&'static str> {
    match fault {
        ParseFault::Text(TextFault::UnclosedString(_)) => Some(
            "a string may contain line ends: if this one is closed, a `\"` may be missing in a line above",
        ),
        ParseFault::Text(TextFault::BadEscape(_)) => {
            Some("the escapes are \\n \\r \\t \\\\ \\0 \\' \\\" \\xHH and \\u{H..}")
        }
        ParseFault::EscapedStar(_) => Some("write `*` without a backslash"),
        ParseFault::DuplicateId(_) => Some("give each policy an `@id` of its own"),
        ParseFault::SlotMisplaced(_) => {
            Some("`?principal` and `?resource` are allowed only in the scope of their own variable")
        }
        ParseFault::Arity(_) => Some(hint_of_arity(language)),
        ParseFault::TooDeep(_) | ParseFault::TooHigh(_) | ParseFault::TooLarge(_) => {
            Some("split the policy into several")
        }
        _ => None,
    }
}

// Which methods of a language take no argument.
fn hint_of_arity(language: Language) -> &'static str {
    match language {
        Language::Profile => {
            "`isEmpty` takes no argument, all others take one; several members are one set: `[1, 2]`"
        }
        Language::Cedar4 => {
            "`isEmpty`, `isIpv4`, `isIpv6`, `isLoopback`, `isMulticast` and the methods that begin with `to` take no argument, all others take one; several members are one set: `[1, 2]`"
        }
    }
}
