//! Environments.
ghost use Rattle.std.specs.Prelude.{◌≡◌, ◌++◌, IfOk, OnOk};
ghost use Rattle.cedar_schema_spec.specs.SchemaTree.{environments_of};
ghost use Rattle.cedar_schema_spec.specs.Private.Environments.{with_principals, with_resources};

use crate::schema::action::Action;
use cedar_schema_spec::Environment;
use cedar_value::{Name, Uid};
use std::alloc::{AllocError, Global};
use std::collections::BTreeMap;

/// The environments of the actions, in ascending order: first of the action's uid, then of the principal's type, then of the
/// resource's type.
pub(crate) fn environments_of(
    alloc: Global,
    actions: &BTreeMap<Uid, Action>,
) -> Result<Vec<Environment>, AllocError>
    ensures { IfOk result (λ v. v.items ≡ environments_of actions.now.entries) }
{
    let mut found = Vec::new(alloc);
    for (uid, action) in actions.iter() {
        push_principals(alloc, &mut found, uid, action)?;
    }
    Ok(found)
}

fn push_principals(
    alloc: Global,
    found: &mut Vec<Environment>,
    uid: &Uid,
    action: &Action,
) -> Result<(), AllocError>
    ensures { OnOk result (found.new.items ≡ found.old.items ++ with_principals uid.now action.now action.now.principals) }
{
    for principal in action.principals().iter() {
        push_resources(alloc, found, uid, principal, action)?;
    }
    Ok(())
}

fn push_resources(
    alloc: Global,
    found: &mut Vec<Environment>,
    uid: &Uid,
    principal: &Name,
    action: &Action,
) -> Result<(), AllocError>
    ensures { OnOk result (found.new.items ≡ found.old.items ++ with_resources uid.now principal.now action.now.context action.now.resources) }
{
    for resource in action.resources().iter() {
        found.push(Environment {
            action: uid.try_clone(alloc)?,
            principal: principal.try_clone(alloc)?,
            resource: resource.try_clone(alloc)?,
            context: action.context().try_clone(alloc)?,
        })?;
    }
    Ok(())
}
