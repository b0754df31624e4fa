//! Which file is refused.
use cedar_files::{FileRefusal, Role};

/// How the line begins that says which file is refused.
const BEGIN: &str = "{\"file\":\"";

/// What is before the number of a refusal.
const NUMBER: &str = "\"refused\":";

/// What is before the place of a refusal, if it has one.
const OFFSET: &str = ",\"offset\":";

/// A file that is refused, and its refusal.
#[derive(Clone, Copy, Debug, PartialEq, Eq)]
pub struct RefusedFile {
    /// What the file is to the program.
    pub role: Role,
    /// Its refusal.
    pub refusal: FileRefusal,
}

// What the file of this name is to the program.
fn role_of(name: &str) -> Option<Role> {
    match name {
        "schema" => Some(Role::Schema),
        "policies" => Some(Role::Policies),
        "links" => Some(Role::Links),
        "entities" => Some(Role::Entities),
        _ => None,
    }
}

/// The number in digits with which some bytes begin.
pub(crate) fn number_of(digits: &[u8]) -> usize {
    let mut number = 0usize;
    for byte in digits {
        if !byte.is_ascii_digit() {
            break;
        }
        number = number.saturating_mul(10);
        number = number.saturating_add(usize::from(byte.saturating_sub(b'0')));
    }
    number
}

/// The file that a line says is refused, such as `{"file":"policies","offset":43,"refused":104}`; or none if it says something else.
pub(crate) fn refused_file(line: &[u8]) -> Option<RefusedFile> {
    let text = str::from_utf8(line).ok()?;
    let (name, rest) = text.strip_prefix(BEGIN)?.split_once('"')?;
    let role = role_of(name)?;
    let (before, after) = rest.split_once(NUMBER)?;
    let number = u16::try_from(number_of(after.as_bytes())).ok()?;
    let offset = before
        .strip_prefix(OFFSET)
        .map(|digits| number_of(digits.as_bytes()));
    Some(RefusedFile {
        role,
        refusal: FileRefusal { number, offset },
    })
}
