//! What is read once more. An error is only that memory ran out: what is refused the second time, or cannot be read, is none.
use cedar_ast::{Link, PolicySet};
use cedar_conform::read_links;
use cedar_conform_values::ConformFault;
use cedar_ext::Language;
use cedar_files::{FileFault, Files, Role, Unread, read_policies, read_schema};
use cedar_schema::Schema;
use cedar_text::{TextFault, Token, normal_tokens, tokens};
use std::alloc::{AllocError, Global};

/// The bytes of a file; none if it is not named or cannot be read.
pub(crate) fn bytes_again<F: Files>(
    alloc: Global,
    files: &F,
    role: Role,
) -> Result<Option<Vec<u8>>, AllocError> {
    match files.read(alloc, role) {
        Ok(bytes) => Ok(bytes),
        Err(FileFault::Memory) => Err(AllocError),
        Err(FileFault::Device) => Ok(None),
    }
}

/// The schema of the schema file in a language; none if it is refused or cannot be read.
pub(crate) fn schema_again<F: Files>(
    alloc: Global,
    files: &F,
    language: Language,
) -> Result<Option<Schema>, AllocError> {
    match read_schema(alloc, files, language) {
        Ok(schema) => Ok(Some(schema)),
        Err(Unread::Memory) => Err(AllocError),
        Err(Unread::Refused(_) | Unread::Unnamed | Unread::Device) => Ok(None),
    }
}

/// The policies of the policy file in a language; none if it is refused or cannot be read.
pub(crate) fn policies_again<F: Files>(
    alloc: Global,
    files: &F,
    language: Language,
) -> Result<Option<PolicySet>, AllocError> {
    match read_policies(alloc, files, language) {
        Ok(policies) => Ok(Some(policies)),
        Err(Unread::Memory) => Err(AllocError),
        Err(Unread::Refused(_) | Unread::Unnamed | Unread::Device) => Ok(None),
    }
}

/// The links that some bytes denote; none if they denote no links.
pub(crate) fn links_of(alloc: Global, bytes: &[u8]) -> Result<Option<Vec<Link>>, AllocError> {
    match read_links(alloc, bytes) {
        Ok(links) => Ok(Some(links)),
        Err(ConformFault::OutOfMemory) => Err(AllocError),
        Err(fault) => {
            drop(fault);
            Ok(None)
        }
    }
}

/// The links of the links file, of which there are none where no such file is named; none if it is refused or cannot be read.
pub(crate) fn links_again<F: Files>(
    alloc: Global,
    files: &F,
) -> Result<Option<Vec<Link>>, AllocError> {
    match files.read(alloc, Role::Links) {
        Ok(Some(bytes)) => links_of(alloc, &bytes),
        Ok(None) => Ok(Some(Vec::new(alloc))),
        Err(FileFault::Memory) => Err(AllocError),
        Err(FileFault::Device) => Ok(None),
    }
}

/// The tokens that a language reads last for a text which has these.
pub(crate) fn tokens_read(
    alloc: Global,
    language: Language,
    written: Vec<Token<'_>>,
) -> Result<Vec<Token<'_>>, AllocError> {
    match language {
        Language::Profile => Ok(written),
        Language::Cedar4 => normal_tokens(alloc, &written),
    }
}

/// The tokens of a text; none if it has no tokens.
pub(crate) fn tokens_again(alloc: Global, text: &str) -> Result<Vec<Token<'_>>, AllocError> {
    match tokens(alloc, text) {
        Ok(found) => Ok(found),
        Err(TextFault::OutOfMemory) => Err(AllocError),
        Err(_) => Ok(Vec::new(alloc)),
    }
}
