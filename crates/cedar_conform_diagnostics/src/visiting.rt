//! Entries of a list of entities, one after another.
use base_json::{ItemReader, JsonReader, ObjectReader, TreeFault};
use serde_json::Value as Json;
use std::alloc::{AllocError, Global};

/// Looks at the entries of a list one after another.
pub(crate) trait Visitor {
    /// Looks at the entry at a position, from 0, and says whether to go on.
    fn visit(&mut self, alloc: Global, position: usize, entry: &Json) -> Result<bool, AllocError>;
}

/// Shows a visitor the entries of a list, as far as the bytes are one. Each entry is freed before the next is read.
pub(crate) fn visit_entries<V: Visitor>(
    alloc: Global,
    bytes: Vec<u8>,
    visitor: &mut V,
) -> Result<(), AllocError> {
    match ObjectReader::open(alloc, bytes) {
        Ok(mut objects) => visit_objects(alloc, &mut objects, visitor),
        Err(bytes) => visit_bytes(alloc, &bytes, visitor),
    }
}

fn visit_objects<V: Visitor>(
    alloc: Global,
    objects: &mut ObjectReader,
    visitor: &mut V,
) -> Result<(), AllocError> {
    let mut read = 0usize;
    for position in 0..usize::MAX {
        let Some(entry) = objects.next(alloc)? else {
            break;
        };
        if !visitor.visit(alloc, position, &entry)? {
            return Ok(());
        }
        drop(entry);
        read = position.saturating_add(1);
    }
    let mut items = objects.rest()?;
    visit_items(alloc, &mut items, read, visitor)
}

fn visit_bytes<V: Visitor>(alloc: Global, bytes: &[u8], visitor: &mut V) -> Result<(), AllocError> {
    let mut reader = JsonReader::new(alloc)?;
    match reader.items(bytes)? {
        Some(mut items) => visit_items(alloc, &mut items, 0, visitor),
        None => Ok(()),
    }
}

fn visit_items<V: Visitor>(
    alloc: Global,
    items: &mut ItemReader<'_>,
    read: usize,
    visitor: &mut V,
) -> Result<(), AllocError> {
    for position in read..usize::MAX {
        let entry = match items.next(alloc) {
            Ok(Some(entry)) => entry,
            Ok(None) | Err(TreeFault::Invalid) => return Ok(()),
            Err(TreeFault::OutOfMemory) => return Err(AllocError),
        };
        if !visitor.visit(alloc, position, &entry)? {
            return Ok(());
        }
        drop(entry);
    }
    Ok(())
}
