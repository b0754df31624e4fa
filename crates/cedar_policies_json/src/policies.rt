//! Policies from JSON.
ghost use Rattle.std.specs.Prelude.{◌≡◌, ℕ, List, IfErr, IfOk, MatchResult, OnOk, Contains};
ghost use Rattle.cedar_ast.specs.AddFault.{number_of};
ghost use Rattle.cedar_ast.specs.PolicySetTree.{PolicySetTree, entered, id_of, ids_in};
ghost use Rattle.cedar_ast.specs.declared.link.Link.{Link as LinkTree};
ghost use Rattle.cedar_parser_limits.specs.StatementLimits.{IsWithinLimits};
ghost use Rattle.cedar_parser_limits.specs.StatementMeaning.{to_statement};
ghost use Rattle.cedar_ext.specs.declared.language.Language.TheVariants.{Cedar4};
ghost use Rattle.cedar_policies_json.specs.PolicyFiles.{ArePolicies, HasFault, IsPolicyFile};
ghost use Rattle.cedar_policies_json.specs.Private.Entering.{RefusesAdd, RefusesAt, RefusesEntry, RefusesSet, refusal_at, refusal_for};
ghost use Rattle.cedar_policies_json.specs.declared.policy_file_fault.PolicyFileFault.TheVariants.{OutOfMemory};

use crate::named_statement::NamedStatement;
use crate::policy_file::read_file;
use crate::policy_file_fault::PolicyFileFault;
use crate::repeats::has_each_key_once;
use base_json::read_json;
use cedar_ast::{AddFault, Link, PolicySet, Statement};
use cedar_ext::Language;
use cedar_parser::to_statement;
use cedar_parser_limits::{cedar4_is_widest, judge};
use cedar_parser_tokens::ParseFault;
use std::alloc::{AllocError, Global};
use std::str;

/// The policies, templates and links of a JSON.
#[derive(Drop)]
pub struct PolicyFile {
    /// The policies and templates, each list in the order of their ids.
    pub policies: PolicySet,
    /// The links in order. None of them is entered in the set: [`PolicySet::link`] enters one.
    pub links: Vec<Link>,
}

/// The policies, templates and links that bytes write as JSON: one policy or template, or a set of `staticPolicies`, `templates` and
/// `templateLinks` (Cedar documentation, JSON policy format; JSON policy set format). A policy of a set has its key as its id; a
/// policy alone has the value of its annotation `id`, else `policy0`.
///
/// # Errors
///
/// - 1: out of memory.
/// - 104: a number is above 9223372036854775807.
/// - 202: a condition is higher than 2,000 nodes.
/// - 203: an object has a key twice.
/// - 204: a policy and a template have one id.
/// - 205: the language does not have a function or method.
/// - 206: a function or method has a wrong number of arguments.
/// - 207: a slot is elsewhere than in its variable's scope.
/// - 209: a condition has more than 100,000 nodes.
/// - 213: the bytes are not JSON.
/// - 214: the JSON does not write policies.
pub fn read_policies(
    alloc: Global,
    language: Language,
    bytes: &[u8],
) -> Result<PolicyFile, PolicyFileFault>
    // The result is what the bytes write.
    ensures found { IfOk result (λ file. IsPolicyFile language bytes.now file.policies file.links.items) }
    // If the bytes write policies, they are the result, unless memory runs out.
    ensures only { (set : PolicySetTree) (links : List LinkTree) → IsPolicyFile language bytes.now set links
        → MatchResult result (λ file. (file.policies ≡ set) × (file.links.items ≡ links)) (λ e. e ≡ OutOfMemory) }
    // Each fault is reported only where the bytes have it.
    ensures fault { IfErr result (HasFault language bytes.now) }
{
    let Ok(text) = str::from_utf8(bytes) else {
        return Err(PolicyFileFault::Json);
    };
    let Some(json) = read_json(alloc, bytes)? else {
        return Err(PolicyFileFault::Json);
    };
    if !has_each_key_once(alloc, text, &json)? {
        return Err(PolicyFileFault::RepeatedKey);
    }
    let Some(file) = read_file(alloc, &json)? else {
        return Err(PolicyFileFault::Shape);
    };
    let policies = to_set(alloc, language, file.statements)?;
    Ok(PolicyFile {
        policies,
        links: file.links,
    })
}

// The set of the policies and templates of statements.
fn to_set(
    alloc: Global,
    language: Language,
    statements: Vec<NamedStatement>,
) -> Result<PolicySet, PolicyFileFault>
    ensures found { IfOk result (ArePolicies language statements.items) }
    ensures fault { IfErr result (RefusesSet language statements.items) }
{
    let mut set = PolicySet::new(alloc);
    let mut position = 0;
    for named in statements {
        add_at(alloc, language, &mut set, position, named)?;
        position += 1;
    }
    Ok(set)
}

// Adds the policy or template of the statement at a position.
fn add_at(
    alloc: Global,
    language: Language,
    set: &mut PolicySet,
    position: usize,
    named: NamedStatement,
) -> Result<(), PolicyFileFault>
    ensures entered { OnOk result (set.new ≡ entered set.old (to_statement named.id named.statement)) }
    ensures limits { OnOk result (IsWithinLimits language named.statement) }
    ensures distinct { OnOk result (Contains (ids_in set.old) named.id → ⊥) }
    ensures refused { IfErr result (RefusesAt language set.old position named) }
{
    match add_statement(alloc, language, set, named) {
        Ok(()) => Ok(()),
        Err(fault) => Err(refusal_at(position, fault)),
    }
}

// Why the statement at a position is refused.
fn refusal_at(position: usize, fault: ParseFault) -> PolicyFileFault
    ensures { result ≡ refusal_at position fault }
{
    match fault {
        ParseFault::OutOfMemory => PolicyFileFault::OutOfMemory,
        _ => PolicyFileFault::Statement(position, fault),
    }
}

// Adds the policy or template of a statement.
fn add_statement(
    alloc: Global,
    language: Language,
    set: &mut PolicySet,
    named: NamedStatement,
) -> Result<(), ParseFault>
    ensures entered { OnOk result (set.new ≡ entered set.old (to_statement named.id named.statement)) }
    ensures limits { OnOk result (IsWithinLimits language named.statement) }
    ensures distinct { OnOk result (Contains (ids_in set.old) named.id → ⊥) }
    ensures refused { IfErr result (RefusesEntry language set.old named) }
{
    judge(alloc, language, &named.statement)?;
    cedar4_is_widest();
    let entry = entry_of(alloc, named)?;
    add_entry(set, entry)
}

// The policy or template of a statement.
fn entry_of(alloc: Global, named: NamedStatement) -> Result<Statement, AllocError>
    requires { IsWithinLimits Cedar4 named.statement }
    ensures { IfOk result (λ e. e ≡ to_statement named.id named.statement) }
{
    to_statement(alloc, named.id, named.statement)
}

// Adds a policy or template.
fn add_entry(set: &mut PolicySet, entry: Statement) -> Result<(), ParseFault>
    ensures entered { OnOk result (set.new ≡ entered set.old entry) }
    ensures distinct { OnOk result (Contains (ids_in set.old) (id_of entry) → ⊥) }
    ensures refused { IfErr result (RefusesAdd set.old entry) }
{
    match set.add(entry) {
        Ok(()) => Ok(()),
        Err(fault) => {
            let refusal = refusal(&fault);
            drop(fault);
            Err(refusal)
        }
    }
}

// Why a statement is not added.
fn refusal(fault: &AddFault) -> ParseFault
    ensures { result ≡ refusal_for (number_of fault.now) }
{
    match fault {
        AddFault::OutOfMemory(_) => ParseFault::OutOfMemory,
        AddFault::DuplicateId(_) => ParseFault::DuplicateId(0),
    }
}
