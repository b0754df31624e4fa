//! The tables that an index keeps.
ghost use Rattle.std.specs.Prelude.{◌<◌, length, IfOk, OnOk};
ghost use Rattle.cedar_auth_candidates.specs.Private.Kept.{AreEntered, IsEntered, IsPolicyAt, KeepsTables};

use crate::uid_lists::{UidLists, insert};
use base_bits::insert_bit;
use cedar_ast::{EntityScope, Policy, PolicySet, Scope};
use cedar_store::UidHashing;
use cedar_value::Uid;
use indexmap::IndexMap;
use std::alloc::{AllocError, Global};
use std::hash::{DefaultHasher, Hash};

/// Positions of policies, found by the one entity that each policy's scope names: under its principal, or else under its
/// resource. A bit marks those that name neither.
#[derive(Drop)]
pub(crate) struct Tables {
    pub(crate) principals: UidLists,
    pub(crate) resources: UidLists,
    pub(crate) unnamed: Vec<u64>,
}

// The policy at a position of the set.
fn policy_at(policies: &PolicySet, position: usize) -> &Policy
    requires { position < length policies.now.policies }
    ensures { IsPolicyAt policies.now.policies position result.now }
{
    match policies.policy(position) {
        Some(policy) => policy,
        None => unreachable!(),
    }
}

// How the uids that the scopes of the policies name are hashed.
fn hashing_of(policies: &PolicySet) -> UidHashing {
    let mut digest = DefaultHasher::new();
    for position in 0..policies.count() {
        let scope = policy_at(policies, position).scope();
        feed(&mut digest, &scope.principal);
        feed(&mut digest, &scope.resource);
    }
    UidHashing::by_digest(digest)
}

fn feed(digest: &mut DefaultHasher, scope: &EntityScope<Uid>) {
    if let Some(uid) = scope.entity() {
        uid.hash(digest);
    }
}

impl Tables {
    /// The tables of all policies of the set.
    pub(crate) fn new(alloc: Global, policies: &PolicySet) -> Result<Self, AllocError>
        ensures { IfOk result (λ t. AreEntered policies.now.policies t (length policies.now.policies)) }
    {
        let hashing = hashing_of(policies);
        let mut tables = Tables {
            principals: IndexMap::with_hasher(alloc, hashing),
            resources: IndexMap::with_hasher(alloc, hashing),
            unnamed: Vec::new(alloc),
        };
        for position in 0..policies.count() {
            let policy = policy_at(policies, position);
            tables.enter(alloc, policy.scope(), position)?;
        }
        Ok(tables)
    }

    // Keeps the position of a policy under what its scope names.
    fn enter(
        &mut self,
        alloc: Global,
        scope: &Scope<Uid>,
        position: usize,
    ) -> Result<(), AllocError>
        ensures kept { OnOk result (KeepsTables self.old self.new) }
        ensures entered { OnOk result (IsEntered self.new scope.now position) }
    {
        if let Some(uid) = scope.principal.entity() {
            insert(alloc, &mut self.principals, uid, position)?;
        } else if let Some(uid) = scope.resource.entity() {
            insert(alloc, &mut self.resources, uid, position)?;
        } else {
            insert_bit(&mut self.unnamed, position)?;
        }
        Ok(())
    }
}
