//! The parser of the path of attributes after `has`.
ghost use Rattle.std.specs.Prelude.{◌≡◌};
ghost use Rattle.cedar_parser_expressions.specs.Reading as spec;
ghost use Rattle.cedar_parser_tokens.specs.Contract.{Reads, ReadsItems};

use cedar_parser_tokens::{Content, Cursor, ParseFault, parse_string};
use cedar_parser_tree::AttributePath;
use cedar_text::TokenKind;
use cedar_value::Text;
use std::alloc::Global;

/// Parses the path of attributes after `has` (Cedar language reference, operators: has).
///
/// # Errors
///
/// 1 when out of memory, 201 where the tokens do not begin with one.
#[tactic(auto, unfolding(crate::specs::Reading::attributes))]
pub fn parse_attribute_path(
    alloc: Global,
    tokens: &mut Cursor<'_>,
) -> Result<AttributePath, ParseFault>
    ensures { Reads (spec.attributes tokens.old) result tokens.new }
{
    if tokens.sees(TokenKind::String) {
        let key = parse_string(alloc, tokens)?;
        return Ok(AttributePath::new(key, Vec::new(alloc)));
    }
    let token = tokens.expect(TokenKind::Identifier)?;
    let first = Content::new(Some(Text::read(alloc, token.text())?), token.start());
    let more = parse_further_attributes(alloc, tokens)?;
    Ok(AttributePath::new(first, more))
}

// Parses dots, each with the identifier after it.
#[tactic(auto, using(cedar_parser_tokens::proofs::Turns::one_left), unfolding(crate::specs::Reading::further, crate::specs::Reading::further_from))]
fn parse_further_attributes(alloc: Global, tokens: &mut Cursor<'_>) -> Result<Vec<Text>, ParseFault>
    ensures { ReadsItems (spec.further tokens.old) result tokens.new }
{
    let mut found = Vec::new(alloc);
    for _turn in 0..tokens.left() {
        if !tokens.sees(TokenKind::Dot) {
            return Ok(found);
        }
        tokens.skip();
        let token = tokens.expect(TokenKind::Identifier)?;
        found.push(Text::read(alloc, token.text())?)?;
    }
    Ok(found)
}
