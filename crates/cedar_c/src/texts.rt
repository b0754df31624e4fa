//! Texts in memory, as the files of an engine.
use cedar_files::{FileFault, Files, Role};
use std::alloc::Global;

/// The texts that a call is given. Links of length 0 are not a links file.
#[derive(Clone, Copy)]
pub struct Texts<'a> {
    pub(crate) schema: &'a [u8],
    pub(crate) policies: &'a [u8],
    pub(crate) links: &'a [u8],
    pub(crate) entities: &'a [u8],
}

impl Files for Texts<'_> {
    ghost use Rattle.cedar_c.specs.Texts.{held_by};

    ghost holds = { λ texts. held_by texts };

    fn read(&self, alloc: Global, role: Role) -> Result<Option<Vec<u8>>, FileFault> {
        let text = match role {
            Role::Schema => self.schema,
            Role::Policies => self.policies,
            Role::Links => self.links,
            Role::Entities => self.entities,
        };
        if matches!(role, Role::Links) && text.is_empty() {
            return Ok(None);
        }
        match Vec::from_slice(alloc, text) {
            Ok(copy) => Ok(Some(copy)),
            Err(_) => Err(FileFault::Memory),
        }
    }
}
