//! The members of a request line with entities.
ghost use Rattle.std.specs.Prelude.{◌≡◌, Err, OnOk, Some};
ghost use Rattle.serde_json.specs.Data.{Members, put};
ghost use Rattle.base_json.specs.Members.{lent_view, members_to_come};
ghost use Rattle.base_json.specs.declared.tree_fault.TreeFault.TheVariants.{Invalid};
ghost use Rattle.cedar_conform.specs.Private.WithEntities.{AreFieldsWith, begun_with};

use crate::fields::Fields;
use base_json::{LentValue, MemberReader, ThreeQuoted, TreeFault};
use std::alloc::Global;

/// The values at the keys of a request, and the one at `entities`. Of a key that comes twice, it is the last.
#[derive(Drop)]
pub(crate) struct FieldsWithEntities<'l> {
    pub(crate) request: Fields<'l>,
    pub(crate) entities: Option<LentValue<'l>>,
}

impl<'l> FieldsWithEntities<'l> {
    /// The values of a principal, an action and a resource, or none.
    pub(crate) fn begun(values: Option<ThreeQuoted<'l>>) -> FieldsWithEntities<'l>
        ensures { result ≡ begun_with values.entry }
    {
        FieldsWithEntities {
            request: Fields::begun(values),
            entities: None,
        }
    }

    /// Adds the members up to the end of their object and of its text.
    pub(crate) fn read(
        &mut self,
        alloc: Global,
        members: &mut MemberReader<'l>,
    ) -> Result<(), TreeFault>
        ensures read { (old : Members) → AreFieldsWith old self.old
            → OnOk result ((ms : Members) × (members_to_come old members.old ≡ Some ms) × AreFieldsWith ms self.new) }
        ensures refused { (old : Members) → AreFieldsWith old self.old → result ≡ Err Invalid → members_to_come old members.old ≡ None }
    {
        'members: while let Some((key, value)) = members.next(alloc)? {
            self.put(key, value);
        }
        Ok(())
    }

    // Adds a member.
    fn put(&mut self, key: &str, value: LentValue<'l>)
        ensures { (ms : Members) → AreFieldsWith ms self.old → AreFieldsWith (put key.now (lent_view value.entry) ms) self.new }
    {
        if key == "entities" {
            self.entities = Some(value);
        } else {
            self.request.put(key, value);
        }
    }
}
