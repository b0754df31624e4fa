//! Files by their names.
use crate::file_names::FileNames;
use crate::files::{FileFault, Files, Role};
use std::alloc::Global;
use std::fs;
use std::io::{self, ErrorKind, Read};

/// The files that a command line names. Nothing is known of what they hold.
#[derive(Drop)]
pub struct NamedFiles<'a, R> {
    rt: &'a R,
    names: FileNames<'a>,
    are_entities_optional: bool,
}

/// What an entities file holds that may be left out, and is.
const NO_ENTITIES: &[u8] = b"[]";

impl<'a, R: std::rt::Files + AllocGlobal> NamedFiles<'a, R> {
    /// The files of these names.
    pub fn new(rt: &'a R, names: FileNames<'a>) -> NamedFiles<'a, R> {
        NamedFiles {
            rt,
            names,
            are_entities_optional: false,
        }
    }

    /// The same files, of which the entities file may be left out. If the command line names none, it holds an empty list.
    pub fn with_optional_entities(self) -> NamedFiles<'a, R> {
        NamedFiles {
            rt: self.rt,
            names: self.names,
            are_entities_optional: true,
        }
    }

    // What a file holds that the command line does not name.
    fn read_unnamed(&self, alloc: Global, role: Role) -> Result<Option<Vec<u8>>, FileFault> {
        if role != Role::Entities || !self.are_entities_optional {
            return Ok(None);
        }
        match Vec::from_slice(alloc, NO_ENTITIES) {
            Ok(bytes) => Ok(Some(bytes)),
            Err(_) => Err(FileFault::Memory),
        }
    }

    /// The name of a file, or none if the command line names no such file.
    pub fn name(&self, role: Role) -> Option<&'a str> {
        name(self.names, role)
    }

    /// Whether a file can be read a second time: whether it is a regular file, and not a pipe, for example. True if the command line
    /// names no such file.
    pub fn is_regular(&self, role: Role) -> bool {
        match name(self.names, role) {
            Some(name) => match fs::metadata(self.rt, name) {
                Ok(metadata) => metadata.is_file(),
                Err(_) => false,
            },
            None => true,
        }
    }

    /// Why a regular file or a folder cannot be read, as the system says it; or none if its first byte can be read. Nothing is read
    /// from a pipe or a device.
    pub fn why_unreadable(&self, role: Role) -> Option<io::Error> {
        let name = name(self.names, role)?;
        match fs::metadata(self.rt, name) {
            Ok(metadata) if !metadata.is_file() && !metadata.is_dir() => return None,
            Ok(_) => {}
            Err(error) => return Some(error),
        }
        match fs::open(self.rt, name) {
            Ok(mut file) => {
                let mut first = [0u8; 1];
                file.read(&mut first).err()
            }
            Err(error) => Some(error),
        }
    }
}

fn name<'a>(names: FileNames<'a>, role: Role) -> Option<&'a str> {
    match role {
        Role::Schema => names.schema,
        Role::Policies => names.policies,
        Role::Links => names.links,
        Role::Entities => names.entities,
    }
}

impl<'a, R: std::rt::Files + AllocGlobal> Files for NamedFiles<'a, R> {
    fn read(&self, alloc: Global, role: Role) -> Result<Option<Vec<u8>>, FileFault> {
        let Some(name) = name(self.names, role) else {
            return self.read_unnamed(alloc, role);
        };
        match fs::read(self.rt, name) {
            Ok(bytes) => Ok(Some(bytes)),
            Err(error) => {
                if error.kind() == ErrorKind::OutOfMemory {
                    Err(FileFault::Memory)
                } else {
                    Err(FileFault::Device)
                }
            }
        }
    }
}
