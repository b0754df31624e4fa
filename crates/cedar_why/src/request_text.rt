//! What is said of the entities of a request.
use crate::value_text::uid_text;
use base_places::Draft;
use cedar_ast_expressions::Variable;
use cedar_auth::Ready;
use cedar_value::{Hierarchy, Request, Uid};
use std::alloc::Global;

/// The variables that are entities.
pub const ENTITIES: [Variable; 3] = [Variable::Principal, Variable::Action, Variable::Resource];

/// The uid that a request has for its principal, its action or its resource.
pub fn uid_of(request: &Request, variable: Variable) -> &Uid {
    match variable {
        Variable::Principal => &request.principal,
        Variable::Action => &request.action,
        Variable::Resource | Variable::Context => &request.resource,
    }
}

/// Whether the principal, the action or the resource of a request is stored.
pub fn is_stored(ready: &Ready, request: &Request, variable: Variable) -> bool {
    ready.store().has(uid_of(request, variable))
}

fn words_of(variable: Variable) -> &'static str {
    match variable {
        Variable::Principal => "the principal",
        Variable::Action => "the action",
        Variable::Resource | Variable::Context => "the resource",
    }
}

/// Adds the entities of a request, and which of them are not stored.
pub fn add_request(alloc: Global, line: &mut Draft, ready: &Ready, request: &Request) {
    line.add("  principal ");
    line.add_made(uid_text(alloc, &request.principal));
    line.add(", action ");
    line.add_made(uid_text(alloc, &request.action));
    line.add(", resource ");
    line.add_made(uid_text(alloc, &request.resource));
    line.add(": ");
    let mut missing = 0usize;
    for variable in ENTITIES {
        if !is_stored(ready, request, variable) {
            line.add(if missing == 0 { "" } else { " and " });
            line.add(words_of(variable));
            missing = missing.saturating_add(1);
        }
    }
    line.add(match missing {
        0 => "all are stored",
        1 => " is not stored",
        _ => " are not stored",
    });
}
