//! The tokens of a schema text.
ghost use Rattle.std.specs.Prelude.{IfOk, IfErr};
ghost use Rattle.cedar_schema_text.specs.Marks.{marks};
ghost use Rattle.cedar_schema_text.specs.SchemaText.{HasTokens, LacksTokens};
ghost use Rattle.cedar_schema_text.specs.Private.Contract.{IsRefusedFor};

use crate::fault::SchemaTextFault;
use crate::lexer::cut;
use crate::strings::read_strings;
use crate::token::Token;
use crate::token_kind::TokenKind;
use std::alloc::Global;

/// The tokens of a text, with a sign for its end (Cedar documentation, schema grammar).
///
/// # Errors
///
/// 310 where no token begins, or where a string begins that denotes no text, and 1 when out of memory.
pub(crate) fn tokens(alloc: Global, text: &str) -> Result<Vec<Token>, SchemaTextFault>
    ensures found { IfOk result (λ v. HasTokens text.now (marks v.items)) }
    ensures fault { IfErr result (λ fault. IsRefusedFor (LacksTokens text.now) fault) }
{
    let pieces = cut(alloc, text)?;
    let mut tokens = read_strings(alloc, &pieces)?;
    tokens.push(Token {
        kind: TokenKind::End,
        start: text.len(),
        text: String::new(alloc),
    })?;
    Ok(tokens)
}
