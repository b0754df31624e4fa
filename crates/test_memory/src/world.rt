//! A schema of documents, policies and a link, and entities that conform to it, each read and made ready by two calls at most.
use crate::again::again;
use cedar_ast::{Link, PolicySet};
use cedar_auth::{NotReady, NotValidated, Ready, Validated};
use cedar_conform::read_links;
use cedar_parser::parse;
use cedar_schema::Schema;
use std::alloc::Global;
use std::test::Fail;

/// Documents, which users delete.
const DOCUMENTS: &[u8] = br#"{"":{"commonTypes":{"Age":{"type":"Long"}},
 "entityTypes":{
  "Team":{},
  "User":{"memberOfTypes":["Team"],"shape":{"type":"Record","attributes":{"age":{"type":"Age","required":false}}}},
  "Doc":{"shape":{"type":"Record","attributes":{"owner":{"type":"Entity","name":"User"},"name":{"type":"String"}}}}},
 "actions":{
  "write":{},
  "delete":{"memberOf":[{"id":"write"}],"appliesTo":{"principalTypes":["User"],"resourceTypes":["Doc"]}}}}}"#;

/// Ann, who is of a team, and her document.
const ENTITIES: &[u8] =
    br#"[{"uid":{"type":"User","id":"ann"},"attrs":{"age":30},"parents":[{"type":"Team","id":"t"}]},
 {"uid":{"type":"Doc","id":"d"},"attrs":{"owner":{"type":"User","id":"ann"},"name":"a"},"parents":[]}]"#;

/// A template that permits, and a policy that forbids by a set that it makes of an attribute, and so takes memory before it is known
/// to forbid.
pub const FORBIDDING: &str = r#"@id("t") permit(principal == ?principal, action, resource);
@id("f") forbid(principal, action, resource) when { principal has age && [principal.age, 1].contains(1) };"#;

/// A template, and a policy that permits.
pub const PERMITTING: &str =
    r#"@id("t") forbid(principal == ?principal, action, resource == ?resource);
@id("p") permit(principal in Team::"t", action in Action::"write", resource);"#;

/// The link of the first template for Ann.
pub const ANN: &[u8] =
    br#"[{"template_id":"t","link_id":"l","args":{"?principal":"User::\"ann\""}}]"#;

/// Ann deletes her document.
pub const DELETE: &[u8] =
    br#"{"principal":"User::\"ann\"","action":"Action::\"delete\"","resource":"Doc::\"d\""}"#;

fn schema(alloc: Global) -> Result<Schema, Fail> {
    match Schema::read(alloc, DOCUMENTS) {
        Ok(schema) => Ok(schema),
        Err(fault) => {
            let number = fault.number();
            drop(fault);
            again(number, Schema::read(alloc, DOCUMENTS))
        }
    }
}

fn policies(alloc: Global, text: &str) -> Result<PolicySet, Fail> {
    match parse(alloc, text) {
        Ok(policies) => Ok(policies),
        Err(fault) => {
            let number = fault.number();
            drop(fault);
            again(number, parse(alloc, text))
        }
    }
}

fn links(alloc: Global, bytes: &[u8]) -> Result<Vec<Link>, Fail> {
    match read_links(alloc, bytes) {
        Ok(links) => Ok(links),
        Err(fault) => {
            let number = fault.number();
            drop(fault);
            again(number, read_links(alloc, bytes))
        }
    }
}

fn enter(policies: &mut PolicySet, link: &Link) -> Result<(), Fail> {
    match policies.link(link.template.as_str(), link.id.as_str(), &link.slots) {
        Ok(()) => Ok(()),
        Err(fault) => {
            let number = fault.number();
            drop(fault);
            let second = policies.link(link.template.as_str(), link.id.as_str(), &link.slots);
            again(number, second)
        }
    }
}

fn enter_all(policies: &mut PolicySet, links: &[Link]) -> Result<(), Fail> {
    for link in links {
        enter(policies, link)?;
    }
    Ok(())
}

// The policies of the text, and those that the links make.
fn linked(alloc: Global, text: &str, bytes: &[u8]) -> Result<PolicySet, Fail> {
    let links = links(alloc, bytes)?;
    let linked = linked_by(alloc, text, &links);
    drop(links);
    linked
}

fn linked_by(alloc: Global, text: &str, links: &[Link]) -> Result<PolicySet, Fail> {
    let mut policies = policies(alloc, text)?;
    let entered = enter_all(&mut policies, links);
    match entered {
        Ok(()) => Ok(policies),
        Err(failure) => {
            drop(policies);
            Err(failure)
        }
    }
}

// The second call, by what the first handed back.
fn validated_again(alloc: Global, refused: NotValidated) -> Result<Validated, Fail> {
    let number = refused.fault.number().unwrap_or(0);
    again(
        number,
        Validated::new(alloc, refused.schema, refused.policies),
    )
}

fn validated(alloc: Global, text: &str, links: &[u8]) -> Result<Validated, Fail> {
    let schema = schema(alloc)?;
    match linked(alloc, text, links) {
        Ok(policies) => validated_by(alloc, schema, policies),
        Err(failure) => {
            drop(schema);
            Err(failure)
        }
    }
}

fn validated_by(alloc: Global, schema: Schema, policies: PolicySet) -> Result<Validated, Fail> {
    match Validated::new(alloc, schema, policies) {
        Ok(validated) => Ok(validated),
        Err(refused) => validated_again(alloc, refused),
    }
}

// The second call, by what the first handed back.
fn ready_again(alloc: Global, refused: NotReady) -> Result<Ready, Fail> {
    let number = refused.fault.number();
    again(number, Ready::new(alloc, refused.validated, ENTITIES))
}

/// The policies of the text, with those that the links make, ready to answer over the entities.
pub fn ready(alloc: Global, text: &str, links: &[u8]) -> Result<Ready, Fail> {
    let validated = validated(alloc, text, links)?;
    match Ready::new(alloc, validated, ENTITIES) {
        Ok(ready) => Ok(ready),
        Err(refused) => ready_again(alloc, refused),
    }
}
