//! The files of a command line, as the host has them.
use cedar_cli::Words;
use cedar_files::{End, FileFault, FileNames, Files, NamedFiles, Role};
use std::alloc::Global;
use std::io::{self, ErrorKind, Read};

/// The word that names standard input.
pub const STANDARD_INPUT: &str = "-";

/// What standard input is called.
pub const NAME: &str = "standard input";

/// What files are to the program, in the order in which it reads them.
pub const ROLES: [Role; 4] = [Role::Schema, Role::Policies, Role::Links, Role::Entities];

/// The option that names a file.
pub fn option_of(role: Role) -> &'static str {
    match role {
        Role::Schema => "--schema",
        Role::Policies => "--policies",
        Role::Links => "--links",
        Role::Entities => "--entities",
    }
}

/// The name of a file, as the command line has it.
pub fn name_of<'a>(names: FileNames<'a>, role: Role) -> Option<&'a str> {
    match role {
        Role::Schema => names.schema,
        Role::Policies => names.policies,
        Role::Links => names.links,
        Role::Entities => names.entities,
    }
}

// What was read of files that can be read only once, by what they are to the program.
#[derive(Drop)]
struct Kept {
    schema: Option<Vec<u8>>,
    policies: Option<Vec<u8>>,
    links: Option<Vec<u8>>,
    entities: Option<Vec<u8>>,
}

impl Kept {
    fn of(&self, role: Role) -> Option<&Vec<u8>> {
        match role {
            Role::Schema => self.schema.as_ref(),
            Role::Policies => self.policies.as_ref(),
            Role::Links => self.links.as_ref(),
            Role::Entities => self.entities.as_ref(),
        }
    }
}

/// The files that a command line names. What is not a regular file, such as a pipe, is read once and kept, so that each file can be read
/// again.
#[derive(Drop)]
pub struct HostFiles<'a> {
    named: NamedFiles<'a, HostRuntime>,
    names: FileNames<'a>,
    kept: Kept,
}

/// All that standard input has.
///
/// # Errors
///
/// `Device` where it cannot be read, `Memory` when out of memory.
pub fn standard_input(rt: &HostRuntime) -> Result<Vec<u8>, End> {
    let mut bytes = Vec::new(rt.alloc());
    let mut reader = rt.reader();
    match reader.read_to_end(&mut bytes) {
        Ok(_) => Ok(bytes),
        Err(error) if error.kind() == ErrorKind::OutOfMemory => Err(End::Memory),
        Err(_) => Err(End::Device),
    }
}

// What a file holds that can be read only once; none of a regular file, which is read when it is needed, and of a file that cannot be read.
fn read_once(
    rt: &HostRuntime,
    named: &NamedFiles<'_, HostRuntime>,
    role: Role,
) -> Result<Option<Vec<u8>>, End> {
    if named.name(role) == Some(STANDARD_INPUT) {
        return standard_input(rt).map(Some);
    }
    if named.is_regular(role) {
        return Ok(None);
    }
    match named.read(rt.alloc(), role) {
        Ok(bytes) => Ok(bytes),
        Err(FileFault::Memory) => Err(End::Memory),
        Err(FileFault::Device) => Ok(None),
    }
}

impl<'a> HostFiles<'a> {
    /// The files of a command line.
    ///
    /// # Errors
    ///
    /// `Device` where standard input is named and cannot be read, `Memory` when out of memory.
    pub fn new(rt: &'a HostRuntime, words: &Words<'a>) -> Result<HostFiles<'a>, End> {
        let named = NamedFiles::new(rt, words.files);
        let named = if words.entities_in_lines {
            named.with_optional_entities()
        } else {
            named
        };
        let kept = Kept {
            schema: read_once(rt, &named, Role::Schema)?,
            policies: read_once(rt, &named, Role::Policies)?,
            links: read_once(rt, &named, Role::Links)?,
            entities: read_once(rt, &named, Role::Entities)?,
        };
        Ok(HostFiles {
            named,
            names: words.files,
            kept,
        })
    }

    /// The name of a file, or none if the command line names no such file.
    pub fn name(&self, role: Role) -> Option<&'a str> {
        match name_of(self.names, role) {
            Some(STANDARD_INPUT) => Some(NAME),
            name => name,
        }
    }

    /// Why a file or a folder cannot be read, as the system says it; or none if its first byte can be read.
    pub fn why_unreadable(&self, role: Role) -> Option<io::Error> {
        self.named.why_unreadable(role)
    }
}

impl<'a> Files for HostFiles<'a> {
    fn read(&self, alloc: Global, role: Role) -> Result<Option<Vec<u8>>, FileFault> {
        let Some(bytes) = self.kept.of(role) else {
            return self.named.read(alloc, role);
        };
        match Vec::from_slice(alloc, bytes) {
            Ok(copy) => Ok(Some(copy)),
            Err(_) => Err(FileFault::Memory),
        }
    }
}
