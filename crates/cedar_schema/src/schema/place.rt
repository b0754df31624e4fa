//! Finds an environment among those of a schema.
ghost use Rattle.std.specs.Prelude.{◌≡◌, ◌↔◌, Contains, IsTrue, MatchOption};
ghost use Rattle.std.specs.List.Sorted.{IsStrictlySortedBy};
ghost use Rattle.cedar_schema_spec.specs.WellFormed.{environment_cmp};
ghost use Rattle.cedar_schema_spec.specs.declared.environment.Environment.{Environment as EnvironmentTree};
ghost use Rattle.cedar_schema.specs.Positions.{IsEnvironmentAt, IsEnvironmentOf};
ghost use Rattle.cedar_schema.specs.Private.Places.{order_to};

use cedar_schema_spec::Environment;
use cedar_value::{Name, Uid};
use std::cmp::Ordering;

// Whether the environment has this action and these types. The ids of actions differ most, so they are compared first.
fn is_of(environment: &Environment, action: &Uid, principal: &Name, resource: &Name) -> bool
    ensures { IsTrue result ↔ IsEnvironmentOf action.now principal.now resource.now environment.now }
{
    environment.action == *action
        && environment.principal == *principal
        && environment.resource == *resource
}

/// Whether the environment at the position has this action and these types.
pub(crate) fn is_at(
    environments: &[Environment],
    position: usize,
    action: &Uid,
    principal: &Name,
    resource: &Name,
) -> bool
    ensures { IsTrue result → IsEnvironmentAt environments.now action.now principal.now resource.now position }
{
    match environments.get(position) {
        Some(environment) => is_of(environment, action, principal, resource),
        None => false,
    }
}

// The order of the environment and of one with this action and these types.
fn order_to(environment: &Environment, action: &Uid, principal: &Name, resource: &Name) -> Ordering
    ensures { result ≡ order_to action.now principal.now resource.now environment.now }
{
    match environment.action.cmp(action) {
        Ordering::Equal => match environment.principal.cmp(principal) {
            Ordering::Equal => environment.resource.cmp(resource),
            other => other,
        },
        other => other,
    }
}

/// The position of the environment with this action and these types, among environments that ascend.
pub(crate) fn place_of(
    environments: &[Environment],
    action: &Uid,
    principal: &Name,
    resource: &Name,
) -> Option<usize>
    requires { IsStrictlySortedBy environment_cmp environments.now }
    ensures { MatchOption result
        ((env : EnvironmentTree) → Contains environments.now env → ¬ IsEnvironmentOf action.now principal.now resource.now env)
        (IsEnvironmentAt environments.now action.now principal.now resource.now) }
{
    let mut low = 0;
    let mut high = environments.len();
    'halves: while low < high {
        let middle = low + (high - low) / 2;
        match order_to(&environments[middle], action, principal, resource) {
            Ordering::Less => low = middle + 1,
            Ordering::Greater => high = middle,
            Ordering::Equal => return Some(middle),
        }
    }
    None
}
