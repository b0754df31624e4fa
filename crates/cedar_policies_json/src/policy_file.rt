//! What the JSON of policies writes.
ghost use Rattle.std.specs.Prelude.{◌≡◌, ◌++◌, IfOk, OnOk, codes, option_and_then, option_map, string_bytes};
ghost use Rattle.serde_json.specs.Find.{get, as_array};
ghost use Rattle.serde_json.specs.View.{members_view, view};
ghost use Rattle.cedar_policies_json.specs.PolicyFiles.{file_read, fits, link_read, named_at, named_read, set_read, single_read};
ghost use Rattle.cedar_policies_json.specs.Parts.{each_read, members_read};

use crate::link::read_links;
use crate::named_statement::NamedStatement;
use crate::statement::read_statement;
use cedar_ast::Link;
use cedar_conform_values::size_of;
use cedar_parser::{has_slot, id_of};
use cedar_parser_tree::WrittenStatement;
use cedar_value::Text;
use serde_json::{Map, Value};
use std::alloc::{AllocError, Global};

/// The statements that a JSON writes, each with its id, and its links.
#[derive(Drop)]
pub(crate) struct WrittenFile {
    /// The statements: policies, and then templates.
    pub(crate) statements: Vec<NamedStatement>,
    /// The links.
    pub(crate) links: Vec<Link>,
}

/// One policy or template, or a set.
pub(crate) fn read_file(alloc: Global, json: &Value) -> Result<Option<WrittenFile>, AllocError>
    ensures { IfOk result (λ found. option_map (λ f. (f.statements.items, f.links.items)) found ≡ file_read (view json.now)) }
{
    if json.get("effect").is_some() {
        read_single(alloc, json)
    } else {
        read_set(alloc, json)
    }
}

// One policy or template.
fn read_single(alloc: Global, json: &Value) -> Result<Option<WrittenFile>, AllocError>
    ensures { IfOk result (λ found. option_map (λ f. (f.statements.items, f.links.items)) found ≡ single_read (view json.now)) }
{
    let Some(statement) = read_statement(alloc, json)? else {
        return Ok(None);
    };
    let id = id_of(alloc, 0, &statement)?;
    let statements = vec![in alloc; NamedStatement { id, statement }]?;
    Ok(Some(WrittenFile {
        statements,
        links: Vec::new(alloc),
    }))
}

// A set of policies and templates with its links.
fn read_set(alloc: Global, json: &Value) -> Result<Option<WrittenFile>, AllocError>
    ensures { IfOk result (λ found. option_map (λ f. (f.statements.items, f.links.items)) found ≡ set_read (view json.now)) }
{
    if size_of(json) != 3 {
        return Ok(None);
    }
    let Some(policies) = named_at(alloc, json, "staticPolicies", false)? else {
        return Ok(None);
    };
    let Some(templates) = named_at(alloc, json, "templates", true)? else {
        return Ok(None);
    };
    let Some(links) = links_at(alloc, json)? else {
        return Ok(None);
    };
    let mut statements = policies;
    let mut templates = templates;
    statements.append(&mut templates)?;
    Ok(Some(WrittenFile { statements, links }))
}

fn links_at(alloc: Global, json: &Value) -> Result<Option<Vec<Link>>, AllocError>
    ensures { IfOk result (λ found. option_map (λ v. v.items) found ≡ option_and_then (each_read link_read) (option_and_then as_array (get (codes "templateLinks") (view json.now)))) }
{
    let Some(links) = json.get("templateLinks") else {
        return Ok(None);
    };
    match links.as_array() {
        Some(items) => read_links(alloc, items),
        None => Ok(None),
    }
}

// The statements of the object at a key.
fn named_at(
    alloc: Global,
    json: &Value,
    key: &str,
    is_template: bool,
) -> Result<Option<Vec<NamedStatement>>, AllocError>
    ensures { IfOk result (λ found. option_map (λ v. v.items) found ≡ named_at is_template key.now (view json.now)) }
{
    let Some(statements) = json.get(key) else {
        return Ok(None);
    };
    match statements.as_object() {
        Some(members) => all_named(alloc, members, is_template),
        None => Ok(None),
    }
}

fn all_named(
    alloc: Global,
    members: &Map<String, Value>,
    is_template: bool,
) -> Result<Option<Vec<NamedStatement>>, AllocError>
    ensures { IfOk result (λ found. option_map (λ v. v.items) found ≡ members_read (named_read is_template) (members_view members.now.entries)) }
{
    let mut found = Vec::new(alloc);
    for (id, json) in members.iter() {
        let Some(statement) = read_named(alloc, id, json, is_template)? else {
            return Ok(None);
        };
        found.push(statement)?;
    }
    Ok(Some(found))
}

// The statement at an id.
fn read_named(
    alloc: Global,
    id: &String,
    json: &Value,
    is_template: bool,
) -> Result<Option<NamedStatement>, AllocError>
    ensures { IfOk result (λ found. found ≡ named_read is_template (string_bytes id.now) (view json.now)) }
{
    let Some(statement) = read_statement(alloc, json)? else {
        return Ok(None);
    };
    if !fits(is_template, &statement) {
        drop(statement);
        return Ok(None);
    }
    Ok(Some(NamedStatement {
        id: Text::read(alloc, id.as_str())?,
        statement,
    }))
}

// Whether a statement is a template exactly if it is to be one.
fn fits(is_template: bool, statement: &WrittenStatement) -> bool
    ensures { result ≡ fits is_template statement.now }
{
    if is_template {
        has_slot(&statement.scope)
    } else {
        !has_slot(&statement.scope)
    }
}
