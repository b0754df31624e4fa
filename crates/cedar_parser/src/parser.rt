//! Policy texts.
ghost use Rattle.std.specs.Prelude.{◌≡◌, [], ℕ, List, Some, IfOk, OnOk, IfErr, MatchResult, Contains};
ghost use Rattle.cedar_ast.specs.PolicySetTree.{PolicySetTree, entered, id_of, ids_in};
ghost use Rattle.cedar_parser.specs.PolicyText.{ArePolicies, IsPolicyText, TokensFault, HasFault};
ghost use Rattle.cedar_parser.specs.Private.ReadAgain.{is_read_again};
ghost use Rattle.cedar_parser.specs.Private.Entering.{RefusesEntry, RefusesAdd, refusal_for};
ghost use Rattle.cedar_ast.specs.AddFault.{number_of};
ghost use Rattle.cedar_parser_limits.specs.StatementMeaning.{statement_of, id_at};
ghost use Rattle.cedar_parser_limits.specs.StatementLimits.{IsWithinLimits};
ghost use Rattle.cedar_ext.specs.declared.language.Language.{Language as Languages};
ghost use Rattle.cedar_ext.specs.declared.language.Language.TheVariants.{Cedar4, Profile};
ghost use Rattle.cedar_ast_expressions.specs.Expression.{unary};
ghost use Rattle.cedar_ast_expressions.specs.declared.operator.BinaryOperator.{BinaryOperator};
ghost use Rattle.cedar_ast_expressions.specs.declared.operator.UnaryOperator.TheVariants.{Has};
ghost use Rattle.cedar_parser_tree.specs.Written.{Written, has};
ghost use Rattle.cedar_parser_tokens.specs.Content.{Content, text_of};
ghost use Rattle.cedar_parser_tokens.specs.declared.parse_fault.ParseFault.TheVariants.{OutOfMemory};
ghost use Rattle.cedar_parser_limits.specs.declared.functions.Method.TheVariants.{Binary};
ghost use Rattle.cedar_parser_limits.specs.Meaning.{to_expression, method_of};
ghost use Rattle.cedar_parser.specs.Earlier.{IsEarlierPolicyText};
ghost use Rattle.cedar_parser.specs.EarlierMeaning.{earlier_method_of};
ghost use Rattle.cedar_parser.specs.Braces.{TextsBeginWithNoBrace};

use crate::policy::{id_of, to_statement};
use cedar_ast::{AddFault, PolicySet, Statement};
use cedar_ext::Language;
use cedar_parser_limits::{cedar4_is_widest, judge};
use cedar_parser_statements::parse_statement;
use cedar_parser_tokens::{Cursor, ParseFault, spelled_tokens};
use cedar_parser_tree::WrittenStatement;
use cedar_text::{one_list, one_spelling};
use std::alloc::{AllocError, Global};

/// The policies and templates of a text in the profile, the language that is read where no other is asked for: `parse_in` with
/// `Language::Profile`.
///
/// # Errors
///
/// Those of [`parse_in`].
pub fn parse(alloc: Global, source: &str) -> Result<PolicySet, ParseFault>
    // The result is the policies of the text.
    ensures found { IfOk result (IsPolicyText Profile source.now) }
    // If the text has policies, they are the result, unless memory runs out.
    ensures only { (set : PolicySetTree) → IsPolicyText Profile source.now set → MatchResult result (λ found. found ≡ set) (λ e. e ≡ OutOfMemory) }
    // Each fault is reported only where the text has it.
    ensures fault { IfErr result (HasFault Profile source.now) }
{
    parse_in(alloc, Language::Profile, source)
}

/// The policies and templates of a text in a language, in order (Cedar language reference, grammar). The statement at position N,
/// from 0, has the value of its annotation `id` as its id, else `policyN`. A statement with a slot is a template.
///
/// Cedar 4 has three spellings beside those of the profile: a comma after the last item of a list, an annotation without a value, and a
/// reserved word as the name of an attribute or a key. A text that is not one of the profile is read by its normal tokens, which spell the
/// same there ([`cedar_text::normal_tokens`]).
///
/// # Errors
///
/// - 1: out of memory, or a token begins at 4 GiB or later.
/// - 101 to 104: the text has no tokens.
/// - 103: the escape `\*` is outside a pattern.
/// - 104: a number is above 9223372036854775807, or after a minus sign above 9223372036854775808.
/// - 201: the tokens are not statements.
/// - 202: more than 100 brackets and `if`s are open at one place of a condition, or a condition is higher than 2,000 nodes.
/// - 203: a key is repeated in a record.
/// - 204: two statements have one id.
/// - 205: the language does not have a function or method.
/// - 206: a function or method has a wrong number of arguments.
/// - 207: a slot is elsewhere than in its variable's scope.
/// - 208: an annotation is repeated.
/// - 209: a condition has more than 100,000 nodes.
pub fn parse_in(alloc: Global, language: Language, source: &str) -> Result<PolicySet, ParseFault>
    // The result is the policies of the text.
    ensures found { IfOk result (IsPolicyText language source.now) }
    // If the text has policies, they are the result, unless memory runs out.
    ensures only { (set : PolicySetTree) → IsPolicyText language source.now set → MatchResult result (λ found. found ≡ set) (λ e. e ≡ OutOfMemory) }
    // Each fault is reported only where the text has it.
    ensures fault { IfErr result (HasFault language source.now) }
{
    // A text has one list of tokens, and a string one list of letters.
    one_list();
    one_spelling();
    let written = spelled_tokens(alloc, source)?;
    let parsed = parse_policies(alloc, language, &mut written.cursor(source.len()));
    if !is_read_again(language, &parsed) {
        return parsed;
    }
    drop(parsed);
    let normal = written.normal(alloc)?;
    parse_policies(alloc, language, &mut normal.cursor(source.len()))
}

// Whether the normal tokens of a text are read after those that it has, which gave this.
fn is_read_again(language: Language, parsed: &Result<PolicySet, ParseFault>) -> bool
    ensures { result ≡ is_read_again language parsed.now }
{
    match (language, parsed) {
        (Language::Profile, _) | (_, Ok(_) | Err(ParseFault::OutOfMemory)) => false,
        (Language::Cedar4, Err(_)) => true,
    }
}

/// No text has two sets of policies, also not in two languages (Cedar language reference, grammar). A law: it runs no code.
pub fn one_policy_set()
    ensures { (language another : Languages) (source : List ℕ) (set other : PolicySetTree)
        → IsPolicyText language source set → IsPolicyText another source other → set ≡ other }
{
    // A text has one list of tokens, and a string one list of letters.
    one_list();
    one_spelling();
}

/// A text that is read in a language is read in Cedar 4, and has the same policies there. So a service that asks for Cedar 4 reads
/// each text of the profile as it did (this project). A law: it runs no code.
pub fn texts_of_each_language()
    ensures { (language : Languages) (source : List ℕ) (set : PolicySetTree) → IsPolicyText language source set → IsPolicyText Cedar4 source set }
{}

/// A text that could be read before `has` took paths of attributes and before the method `isEmpty` existed is read as it was
/// then (Cedar language reference, grammar). A law: it runs no code.
pub fn earlier_texts()
    // The policies that such a text had under the earlier grammar and meaning are its policies now.
    ensures texts { (source : List ℕ) (set : PolicySetTree) → IsEarlierPolicyText source set → IsPolicyText Profile source set }
    // `has` with one attribute tests for that attribute, as it did.
    ensures attributes { (operand : Written) (first : Content) → to_expression (has operand first []) ≡ unary (Has (text_of first)) (to_expression operand) }
    // Each earlier method is still the same operator.
    ensures methods { (name : List ℕ) (op : BinaryOperator) → earlier_method_of name ≡ Some op → method_of name ≡ Some (Binary op) }
{}

/// No policy text begins with `{`, also not after white space of JSON. So a text that does can be read as JSON, and no policy text
/// is lost (Cedar language reference, grammar; RFC 8259, section 2). A law: it runs no code.
pub fn texts_begin_with_no_brace()
    ensures { TextsBeginWithNoBrace }
{}

// The policies of all tokens.
fn parse_policies(
    alloc: Global,
    language: Language,
    tokens: &mut Cursor<'_>,
) -> Result<PolicySet, ParseFault>
    ensures found { IfOk result (ArePolicies language tokens.old []) }
    ensures only { (set : PolicySetTree) → ArePolicies language tokens.old [] set → MatchResult result (λ found. found ≡ set) (λ e. e ≡ OutOfMemory) }
    ensures fault { IfErr result (TokensFault language tokens.old) }
{
    let mut set = PolicySet::new(alloc);
    for position in 0..tokens.left() {
        if tokens.left() == 0 {
            return Ok(set);
        }
        let statement = parse_statement(alloc, tokens)?;
        add_statement(alloc, language, &mut set, position, statement)?;
    }
    Ok(set)
}

// Adds the policy or template of the statement at a position.
fn add_statement(
    alloc: Global,
    language: Language,
    set: &mut PolicySet,
    position: usize,
    statement: WrittenStatement,
) -> Result<(), ParseFault>
    ensures entered { OnOk result (set.new ≡ entered set.old (statement_of position statement)) }
    ensures limits { OnOk result (IsWithinLimits language statement) }
    ensures distinct { OnOk result (Contains (ids_in set.old) (id_at position statement) → ⊥) }
    ensures refused { IfErr result (RefusesEntry language set.old position statement) }
{
    judge(alloc, language, &statement)?;
    cedar4_is_widest();
    let start = statement.start;
    let entry = statement_of(alloc, position, statement)?;
    add_entry(set, entry, start)
}

// The policy or template of the statement at a position.
fn statement_of(
    alloc: Global,
    position: usize,
    statement: WrittenStatement,
) -> Result<Statement, AllocError>
    requires { IsWithinLimits Cedar4 statement }
    ensures { IfOk result (λ e. e ≡ statement_of position statement) }
{
    let id = id_of(alloc, position, &statement)?;
    to_statement(alloc, id, statement)
}

// Adds a policy or template, whose statement begins at the place.
fn add_entry(set: &mut PolicySet, entry: Statement, start: usize) -> Result<(), ParseFault>
    ensures entered { OnOk result (set.new ≡ entered set.old entry) }
    ensures distinct { OnOk result (Contains (ids_in set.old) (id_of entry) → ⊥) }
    ensures refused { IfErr result (RefusesAdd set.old entry) }
{
    match set.add(entry) {
        Ok(()) => Ok(()),
        Err(fault) => {
            let refusal = refusal(&fault, start);
            drop(fault);
            Err(refusal)
        }
    }
}

// Why the statement at the place is not added.
fn refusal(fault: &AddFault, start: usize) -> ParseFault
    ensures { result ≡ refusal_for (number_of fault.now) start }
{
    match fault {
        AddFault::OutOfMemory(_) => ParseFault::OutOfMemory,
        AddFault::DuplicateId(_) => ParseFault::DuplicateId(start),
    }
}
