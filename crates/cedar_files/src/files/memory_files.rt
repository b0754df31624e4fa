//! Files in memory.
use crate::files::{FileFault, Files, Role};
use std::alloc::Global;

/// Files in memory, for tests. Each is None where the command line names no such file.
#[derive(Clone, Copy)]
pub struct MemoryFiles<'a> {
    /// The schema.
    pub schema: Option<&'a [u8]>,
    /// The policies.
    pub policies: Option<&'a [u8]>,
    /// The links.
    pub links: Option<&'a [u8]>,
    /// The entities.
    pub entities: Option<&'a [u8]>,
}

impl Files for MemoryFiles<'_> {
    ghost use Rattle.std.specs.Prelude.{◌≡◌, option_map, Some};
    ghost use Rattle.cedar_files.specs.Roles.{by_role};

    ghost holds = { λ s role. Some (option_map (λ b. b.now) (by_role s.schema s.policies s.links s.entities role)) };

    fn read(&self, alloc: Global, role: Role) -> Result<Option<Vec<u8>>, FileFault> {
        let held = match role {
            Role::Schema => self.schema,
            Role::Policies => self.policies,
            Role::Links => self.links,
            Role::Entities => self.entities,
        };
        let Some(bytes) = held else {
            return Ok(None);
        };
        match Vec::from_slice(alloc, bytes) {
            Ok(copy) => Ok(Some(copy)),
            Err(_) => Err(FileFault::Memory),
        }
    }
}
