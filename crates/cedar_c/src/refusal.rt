//! Which file is refused, for C.
ghost use Rattle.std.specs.Prelude.{◌≡◌};
ghost use Rattle.cedar_c.specs.Publishing.{IsRefusalOf, file_number, no_refusal, offset_number};

use cedar_files::{FileRefusal, Role};

/// Which file is refused, and why.
#[repr(C)]
#[derive(Clone, Copy)]
pub struct Refusal {
    /// The file: 1 the schema, 2 the policies, 3 the links, 4 the entities, and 0 where none is refused.
    pub(crate) file: u32,
    /// The number of the refusal.
    pub(crate) number: u32,
    /// Where in the file the fault is, in bytes from 0, or 2^64 - 1 if it has no place.
    pub(crate) offset: u64,
}

fn file_number(role: Role) -> u32
    ensures { result ≡ file_number role }
{
    match role {
        Role::Schema => 1,
        Role::Policies => 2,
        Role::Links => 3,
        Role::Entities => 4,
    }
}

fn offset_number(offset: Option<usize>) -> u64
    ensures { result ≡ offset_number offset }
{
    match offset {
        None => u64::MAX,
        Some(at) => at as u64,
    }
}

impl Refusal {
    /// Where no file is refused.
    pub(crate) fn none() -> Refusal
        ensures { result ≡ no_refusal }
    {
        Refusal {
            file: 0,
            number: 0,
            offset: u64::MAX,
        }
    }

    /// The refusal of a file.
    pub(crate) fn of(role: Role, refusal: FileRefusal) -> Refusal
        ensures { IsRefusalOf role refusal result }
    {
        Refusal {
            file: file_number(role),
            number: u32::from(refusal.number),
            offset: offset_number(refusal.offset),
        }
    }
}
