//! One statement of a policy text.
use cedar_parser_statements::parse_statement;
use cedar_parser_tokens::{Cursor, ParseFault, SpelledTokens, spelled_tokens};
use cedar_parser_tree::WrittenStatement;
use std::alloc::{AllocError, Global};

/// The id of the statement at a position, from 0: that of its annotation `id`, or else `policyN`.
pub fn id_of(
    alloc: Global,
    statement: &WrittenStatement,
    position: usize,
) -> Result<String, AllocError> {
    for annotation in &statement.annotations {
        if annotation.name.as_str() == "id" {
            return String::from_str(alloc, annotation.value.as_str());
        }
    }
    format!(in alloc; "policy{position}")
}

/// The next statement; or none at the end of what can be read.
pub fn next_statement(
    alloc: Global,
    tokens: &mut Cursor<'_>,
) -> Result<Option<WrittenStatement>, AllocError> {
    if tokens.left() == 0 {
        return Ok(None);
    }
    match parse_statement(alloc, tokens) {
        Ok(statement) => Ok(Some(statement)),
        Err(ParseFault::OutOfMemory) => Err(AllocError),
        Err(_) => Ok(None),
    }
}

/// The statement with which a text begins; or none if it cannot be read.
pub fn first_statement(alloc: Global, text: &str) -> Result<Option<WrittenStatement>, AllocError> {
    match normal_spelled(alloc, text)? {
        Some(spelled) => {
            let mut cursor = spelled.cursor(text.len());
            next_statement(alloc, &mut cursor)
        }
        None => Ok(None),
    }
}

/// The normal tokens of a text, which are its tokens where it is one of the profile; or none if it has no tokens.
pub fn normal_spelled(alloc: Global, text: &str) -> Result<Option<SpelledTokens<'_>>, AllocError> {
    match spelled_tokens(alloc, text) {
        Ok(written) => written.normal(alloc).map(Some),
        Err(ParseFault::OutOfMemory) => Err(AllocError),
        Err(_) => Ok(None),
    }
}
