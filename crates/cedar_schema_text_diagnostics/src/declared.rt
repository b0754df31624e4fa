//! The names that a schema text declares.
use crate::piece::{Piece, pieces_of};
use crate::steps::Steps;
use std::alloc::{AllocError, Global};

/// What a name is declared as.
#[derive(Clone, Copy, Debug, PartialEq, Eq)]
pub enum Section {
    /// A common type.
    CommonType,
    /// An entity type.
    EntityType,
    /// An action.
    Action,
    /// A namespace.
    Namespace,
}

/// A name that a schema text declares, and where.
#[derive(Clone, Copy)]
pub struct Declared<'t> {
    /// What it is declared as.
    pub section: Section,
    /// The namespace in which it is declared, as it is written; empty outside of namespaces. Of a namespace its path.
    pub namespace: &'t str,
    /// The name, without the quotes that it may have; of a namespace the first word of its path.
    pub name: &'t str,
    /// Where the name begins, in bytes from 0.
    pub start: usize,
    /// Where it ends, in bytes from 0.
    pub end: usize,
}

// What a declaration with this word declares.
fn section_of(keyword: &str) -> Option<Section> {
    match keyword {
        "type" => Some(Section::CommonType),
        "entity" => Some(Section::EntityType),
        "action" => Some(Section::Action),
        "namespace" => Some(Section::Namespace),
        _ => None,
    }
}

/// The names that a text declares, in order, up to the first part that the grammar does not allow.
///
/// # Errors
///
/// Fails only when out of memory.
pub fn declared_in(alloc: Global, text: &str) -> Result<Vec<Declared<'_>>, AllocError> {
    let pieces = pieces_of(alloc, text)?;
    declared_of(alloc, text, &pieces)
}

// A walk over the pieces of a text that finds the names.
#[derive(Drop)]
struct Naming<'t> {
    steps: Steps<'t>,
    // The path of the namespace.
    namespace: &'t str,
    // Whether a name comes next.
    is_awaited: bool,
    // Whether a name has come right before.
    is_named: bool,
    found: Vec<Declared<'t>>,
}

impl<'t> Naming<'t> {
    // Goes past the first of these pieces of a text, which is at a position among all.
    fn take(
        &mut self,
        text: &'t str,
        rest: &[Piece<'t>],
        piece: Piece<'t>,
        position: usize,
    ) -> Result<(), AllocError> {
        let is_name = self.is_awaited && piece.is_name();
        if is_name {
            self.add(text, rest, piece)?;
        }
        let was_bare = self.steps.keyword.is_none();
        self.steps.take(piece, position)?;
        let is_bare = self.steps.keyword.is_none();
        if is_bare && self.steps.namespace.is_none() {
            self.namespace = "";
        }
        self.is_awaited = (was_bare && !is_bare) || (self.is_named && piece.text == ",");
        self.is_named = is_name;
        Ok(())
    }

    // Adds a name.
    fn add(
        &mut self,
        text: &'t str,
        rest: &[Piece<'t>],
        piece: Piece<'t>,
    ) -> Result<(), AllocError> {
        let Some(section) = self
            .steps
            .keyword
            .and_then(|keyword| section_of(keyword.text))
        else {
            return Ok(());
        };
        if section == Section::Namespace {
            self.namespace = path_at(text, rest);
        }
        self.found.push(Declared {
            section,
            namespace: self.namespace,
            name: piece.name(),
            start: piece.start,
            end: piece.end(),
        })?;
        Ok(())
    }
}

/// The names that a text of these pieces declares, in order.
///
/// # Errors
///
/// Fails only when out of memory.
pub(crate) fn declared_of<'t>(
    alloc: Global,
    text: &'t str,
    pieces: &[Piece<'t>],
) -> Result<Vec<Declared<'t>>, AllocError> {
    let mut naming = Naming {
        steps: Steps::new(alloc),
        namespace: "",
        is_awaited: false,
        is_named: false,
        found: Vec::new(alloc),
    };
    for (position, piece) in pieces.iter().enumerate() {
        let rest = pieces.get(position..).unwrap_or(&[]);
        naming.take(text, rest, *piece, position)?;
    }
    Ok(naming.found)
}

// The path with which these pieces of a text begin: words with `::` between them.
fn path_at<'t>(text: &'t str, pieces: &[Piece<'t>]) -> &'t str {
    let start = pieces.first().map_or(0, |first| first.start);
    let mut end = start;
    for piece in pieces {
        if piece.text != "::" && !piece.is_name() {
            break;
        }
        end = piece.end();
    }
    text.get(start..end).unwrap_or("")
}
