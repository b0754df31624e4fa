//! The members of a request line.
ghost use Rattle.std.specs.Prelude.{◌≡◌, Err, OnOk, Some, None};
ghost use Rattle.serde_json.specs.Data.{Members, put};
ghost use Rattle.base_json.specs.Members.{lent_view, members_to_come};
ghost use Rattle.base_json.specs.declared.tree_fault.TreeFault.TheVariants.{Invalid};
ghost use Rattle.cedar_conform.specs.Private.Fields.{AreFieldsOf, begun_fields};

use base_json::{LentValue, MemberReader, ThreeQuoted, TreeFault};
use std::alloc::Global;

/// The values at the keys of a request. Of a key that comes twice, it is the last (RFC 8259, section 4; as `serde_json` reads it).
#[derive(Drop)]
pub(crate) struct Fields<'l> {
    pub(crate) principal: Option<LentValue<'l>>,
    pub(crate) action: Option<LentValue<'l>>,
    pub(crate) resource: Option<LentValue<'l>>,
    pub(crate) context: Option<LentValue<'l>>,
    /// Whether there is no other key.
    pub(crate) are_known: bool,
}

impl<'l> Fields<'l> {
    /// Adds the members up to the end of their object and of its text.
    #[inline(always)]
    pub(crate) fn read(
        &mut self,
        alloc: Global,
        members: &mut MemberReader<'l>,
    ) -> Result<(), TreeFault>
        ensures read { (old : Members) → AreFieldsOf old self.old
            → OnOk result ((ms : Members) × (members_to_come old members.old ≡ Some ms) × AreFieldsOf ms self.new) }
        ensures refused { (old : Members) → AreFieldsOf old self.old → result ≡ Err Invalid → members_to_come old members.old ≡ None }
    {
        'members: while let Some((key, value)) = members.next(alloc)? {
            self.put(key, value);
        }
        Ok(())
    }

    /// The values of a principal, an action and a resource, or none.
    pub(crate) fn begun(values: Option<ThreeQuoted<'l>>) -> Fields<'l>
        ensures { result ≡ begun_fields values.entry }
    {
        match values {
            Some(values) => Fields {
                principal: Some(LentValue::Quoted(values.first)),
                action: Some(LentValue::Quoted(values.second)),
                resource: Some(LentValue::Quoted(values.third)),
                context: None,
                are_known: true,
            },
            None => Fields {
                principal: None,
                action: None,
                resource: None,
                context: None,
                are_known: true,
            },
        }
    }

    /// Adds a member.
    #[inline(always)]
    pub(crate) fn put(&mut self, key: &str, value: LentValue<'l>)
        ensures { (ms : Members) → AreFieldsOf ms self.old → AreFieldsOf (put key.now (lent_view value.entry) ms) self.new }
    {
        if key == "principal" {
            self.principal = Some(value);
        } else if key == "action" {
            self.action = Some(value);
        } else if key == "resource" {
            self.resource = Some(value);
        } else if key == "context" {
            self.context = Some(value);
        } else {
            self.are_known = false;
        }
    }
}
