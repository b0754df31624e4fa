//! The languages that are read.

/// A language in which policies, schemas and entities are written.
#[derive(Clone, Copy, Debug, PartialEq, Eq)]
pub enum Language {
    /// The profile: the part of the Cedar policy language that is read where no other language is asked for.
    Profile,
    /// The language of Cedar 4.
    Cedar4,
}
