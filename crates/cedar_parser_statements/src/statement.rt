//! The parser of statements.
ghost use Rattle.std.specs.Prelude.{◌≡◌, IfOk, IfErr};
ghost use Rattle.cedar_parser_statements.specs.Statements as grammar;
ghost use Rattle.cedar_parser_tree.specs.StatementTree.{StatementTree};
ghost use Rattle.cedar_parser_statements.specs.StatementText.{IsStatement, HasStatement, HasStatementFault};
ghost use Rattle.cedar_parser_tokens.specs.Marks.{Marks};
ghost use Rattle.cedar_parser_statements.specs.StatementReading as spec;
ghost use Rattle.cedar_parser_tokens.specs.Contract.{Reads, ReadsItems};

use crate::scope::parse_scope;
use cedar_ast::{ConditionKind, Effect};
use cedar_parser_expressions::parse_expression;
use cedar_parser_tokens::{Cursor, ParseFault, Word, parse_string};
use cedar_parser_tree::{Written, WrittenAnnotation, WrittenCondition, WrittenStatement};
use cedar_text::TokenKind;
use std::alloc::Global;

/// How many brackets may be open at one place inside a condition.
const MAX_OPEN: u8 = 100;

/// Parses a statement, with which the tokens that are left begin (Cedar language reference, grammar: policies).
///
/// # Errors
///
/// 1 when out of memory; 201 where the tokens do not begin with a statement; 202 where more than 100 brackets and `if`s are
/// open at one place of a condition.
pub fn parse_statement(
    alloc: Global,
    tokens: &mut Cursor<'_>,
) -> Result<WrittenStatement, ParseFault>
    // The result is a statement that the tokens begin with, and its tokens are taken.
    ensures found { IfOk result (λ s. IsStatement tokens.old s tokens.new) }
    // If the tokens begin with a statement, it is the result, unless memory runs out.
    ensures only { (s : StatementTree) (us : Marks) → IsStatement tokens.old s us → HasStatement s us result tokens.new }
    // Each fault is reported only where the tokens have it.
    ensures fault { IfErr result (HasStatementFault tokens.old) }
    // The result is what reading from left to right gives.
    ensures reads { Reads (spec.statement 101 tokens.old) result tokens.new }
{
    parse_statement_parts(alloc, tokens)
}

#[tactic(auto, unfolding(crate::specs::StatementReading::statement))]
fn parse_statement_parts(
    alloc: Global,
    tokens: &mut Cursor<'_>,
) -> Result<WrittenStatement, ParseFault>
    ensures { Reads (spec.statement 101 tokens.old) result tokens.new }
{
    let start = tokens.start();
    let annotations = parse_annotations(alloc, tokens)?;
    let word = tokens.expect(TokenKind::Identifier)?;
    let Some(effect) = effect_of(word.text()) else {
        return Err(ParseFault::Syntax(word.start()));
    };
    parse_statement_from_scope(alloc, tokens, start, annotations, effect)
}

// Parses the statement from its scope on.
#[tactic(auto, unfolding(crate::specs::StatementReading::behind_effect))]
fn parse_statement_from_scope(
    alloc: Global,
    tokens: &mut Cursor<'_>,
    start: usize,
    annotations: Vec<WrittenAnnotation>,
    effect: Effect,
) -> Result<WrittenStatement, ParseFault>
    ensures { Reads (spec.behind_effect 101 start annotations.items effect tokens.old) result tokens.new }
{
    let scope = parse_scope(alloc, tokens)?;
    match parse_statement_end(alloc, tokens) {
        Ok(conditions) => Ok(WrittenStatement {
            start,
            annotations,
            effect,
            scope,
            conditions,
        }),
        Err(fault) => {
            drop(scope);
            Err(fault)
        }
    }
}

// Parses the conditions and the sign that ends the statement.
#[tactic(auto, unfolding(crate::specs::StatementReading::ending))]
fn parse_statement_end(
    alloc: Global,
    tokens: &mut Cursor<'_>,
) -> Result<Vec<WrittenCondition>, ParseFault>
    ensures { ReadsItems (spec.ending 101 tokens.old) result tokens.new }
{
    let conditions = parse_conditions(alloc, tokens)?;
    tokens.expect(TokenKind::Semicolon)?;
    Ok(conditions)
}

#[tactic(auto, using(cedar_parser_tokens::proofs::Turns::one_left), unfolding(crate::specs::StatementReading::annotations, crate::specs::StatementReading::annotations_from))]
fn parse_annotations(
    alloc: Global,
    tokens: &mut Cursor<'_>,
) -> Result<Vec<WrittenAnnotation>, ParseFault>
    ensures { ReadsItems (spec.annotations tokens.old) result tokens.new }
{
    let mut found = Vec::new(alloc);
    for _turn in 0..tokens.left() {
        if !tokens.sees(TokenKind::At) {
            return Ok(found);
        }
        let annotation = parse_annotation(alloc, tokens)?;
        found.push(annotation)?;
    }
    Ok(found)
}

#[tactic(auto, unfolding(crate::specs::StatementReading::annotation))]
fn parse_annotation(alloc: Global, tokens: &mut Cursor<'_>) -> Result<WrittenAnnotation, ParseFault>
    ensures { Reads (spec.annotation tokens.old) result tokens.new }
{
    let start = tokens.expect(TokenKind::At)?.start();
    let word = tokens.expect_any_word()?;
    let name = Word::read(alloc, word.text(), word.start())?;
    tokens.expect(TokenKind::LeftParen)?;
    let value = parse_string(alloc, tokens)?;
    tokens.expect(TokenKind::RightParen)?;
    Ok(WrittenAnnotation { start, name, value })
}

fn effect_of(word: &str) -> Option<Effect>
    ensures { result ≡ grammar.effect_of word.now }
{
    match word {
        "permit" => Some(Effect::Permit),
        "forbid" => Some(Effect::Forbid),
        _ => None,
    }
}

#[tactic(auto, using(cedar_parser_tokens::proofs::Turns::one_left), unfolding(crate::specs::StatementReading::conditions, crate::specs::StatementReading::conditions_from))]
fn parse_conditions(
    alloc: Global,
    tokens: &mut Cursor<'_>,
) -> Result<Vec<WrittenCondition>, ParseFault>
    ensures { ReadsItems (spec.conditions 101 tokens.old) result tokens.new }
{
    let mut found = Vec::new(alloc);
    for _turn in 0..tokens.left() {
        let Some(kind) = peek_condition_kind(tokens) else {
            return Ok(found);
        };
        tokens.skip();
        let body = parse_condition_body(alloc, tokens)?;
        found.push(WrittenCondition { kind, body })?;
    }
    Ok(found)
}

// The kind of the condition that begins here, if one does.
#[tactic(auto, unfolding(crate::specs::StatementReading::condition_at))]
fn peek_condition_kind(tokens: &Cursor<'_>) -> Option<ConditionKind>
    ensures { result ≡ spec.condition_at tokens.now }
{
    let token = tokens.peek()?;
    if token.kind() != TokenKind::Identifier {
        return None;
    }
    condition_kind_of(token.text())
}

fn condition_kind_of(word: &str) -> Option<ConditionKind>
    ensures { result ≡ grammar.condition_kind_of word.now }
{
    match word {
        "when" => Some(ConditionKind::When),
        "unless" => Some(ConditionKind::Unless),
        _ => None,
    }
}

// Parses the expression of a condition, in braces.
#[tactic(auto, unfolding(crate::specs::StatementReading::block))]
fn parse_condition_body(alloc: Global, tokens: &mut Cursor<'_>) -> Result<Written, ParseFault>
    ensures { Reads (spec.block 101 tokens.old) result tokens.new }
{
    tokens.expect(TokenKind::LeftBrace)?;
    let body = parse_expression(alloc, tokens, MAX_OPEN + 1)?;
    match tokens.expect(TokenKind::RightBrace) {
        Ok(_) => Ok(body),
        Err(fault) => {
            drop(body);
            Err(fault)
        }
    }
}
