//! Which tokens are signs, and which words are variables.
ghost use Rattle.std.specs.Prelude.{◌≡◌, option_and_then};
ghost use Rattle.cedar_parser_expressions.specs.Grammar as grammar;
ghost use Rattle.cedar_parser_expressions.specs.Reading as reading;

use crate::chain_level::ChainLevel;
use cedar_ast_expressions::Variable;
use cedar_parser_tree::{ChainSign, RelationSign};
use cedar_text::TokenKind;

/// The sign between operands of this level.
pub fn chain_sign(level: ChainLevel, kind: Option<TokenKind>) -> Option<ChainSign>
    ensures { result ≡ option_and_then (reading.signs_of level) kind }
{
    match (level, kind?) {
        (ChainLevel::Or, TokenKind::OrOr) => Some(ChainSign::Or),
        (ChainLevel::And, TokenKind::AndAnd) => Some(ChainSign::And),
        (ChainLevel::Add, TokenKind::Plus) => Some(ChainSign::Plus),
        (ChainLevel::Add, TokenKind::Minus) => Some(ChainSign::Minus),
        (ChainLevel::Mult, TokenKind::Star) => Some(ChainSign::Times),
        _ => None,
    }
}

/// The sign of a relation with two operands.
pub fn relation_sign(kind: Option<TokenKind>) -> Option<RelationSign>
    ensures { result ≡ option_and_then grammar.relation_sign_of kind }
{
    match kind? {
        TokenKind::Less => Some(RelationSign::Less),
        TokenKind::LessEqual => Some(RelationSign::LessEqual),
        TokenKind::Greater => Some(RelationSign::Greater),
        TokenKind::GreaterEqual => Some(RelationSign::GreaterEqual),
        TokenKind::Equal => Some(RelationSign::Equal),
        TokenKind::NotEqual => Some(RelationSign::NotEqual),
        TokenKind::In => Some(RelationSign::In),
        _ => None,
    }
}

/// The variable of this name.
pub fn variable_of(name: &str) -> Option<Variable>
    ensures { result ≡ grammar.variable_of name.now }
{
    match name {
        "principal" => Some(Variable::Principal),
        "action" => Some(Variable::Action),
        "resource" => Some(Variable::Resource),
        "context" => Some(Variable::Context),
        _ => None,
    }
}

/// The variable of the slot of this name.
pub fn slot_of(name: &str) -> Option<Variable>
    ensures { result ≡ grammar.slot_of name.now }
{
    match name {
        "?principal" => Some(Variable::Principal),
        "?resource" => Some(Variable::Resource),
        _ => None,
    }
}
