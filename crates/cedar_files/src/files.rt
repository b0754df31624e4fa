//! The files that the command line names.
use std::alloc::Global;
use thiserror::Error;

mod memory_files;
mod named_files;

pub use memory_files::MemoryFiles;
pub use named_files::NamedFiles;

/// What a file is to the program.
#[derive(Clone, Copy, Debug, PartialEq, Eq)]
pub enum Role {
    /// The schema, in JSON.
    Schema,
    /// The policies, in text.
    Policies,
    /// The links of templates, in JSON.
    Links,
    /// The entities, in JSON.
    Entities,
}

/// Why a file that is named can't be read.
#[derive(Clone, Copy, Debug, PartialEq, Eq, Error)]
pub enum FileFault {
    /// The device failed, or there is no such file.
    #[error("the file cannot be read")]
    Device,
    /// Memory ran out.
    #[error("out of memory")]
    Memory,
}

/// Reads the files that a command line names.
pub trait Files {
    ghost use Rattle.std.specs.Prelude.{◌≡◌, List, ℕ, Option, IfOk, IfSome, None, option_map, IsErrOf};
    ghost use Rattle.cedar_files.specs.declared.files.Role.{Role};

    // The bytes of each file, or none where none is named; where that is known.
    ghost holds: { Self → Role → Option (Option (List ℕ)) } = { λ _ _. None };

    /// The bytes of the file. None where the command line names no such file. `Device` only where it isn't known what the file
    /// holds.
    fn read(&self, alloc: Global, role: Role) -> Result<Option<Vec<u8>>, FileFault>
        ensures held { IfOk result (λ o. IfSome (holds self.now role) (λ held. option_map (λ v. v.items) o ≡ held)) }
        ensures device { IsErrOf result FileFault.Device → holds self.now role ≡ None };
}
