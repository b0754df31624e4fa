//! Links files that are refused: the link, and the key.
use crate::again::{links_of, policies_again};
use crate::data::add_fault;
use crate::diagnostic::Explanation;
use crate::diagnostic_draft::DiagnosticDraft;
use crate::item_place::{item_place, note_other_than_list};
use crate::link_words::add_meaning;
use crate::words::words_of;
use cedar_ast::{Link, LinkFault, PolicySet};
use cedar_conform_diagnostics::refused_link;
use cedar_ext::Language;
use cedar_files::Files;
use std::alloc::{AllocError, Global};

/// Enters links after policies, up to the first that is refused, and gives its position, from 0. None if all are entered.
pub(crate) fn first_refused(
    policies: &mut PolicySet,
    links: &[Link],
) -> Result<Option<usize>, AllocError> {
    for (position, link) in links.iter().enumerate() {
        match policies.link(link.template.as_str(), link.id.as_str(), &link.slots) {
            Ok(()) => {}
            Err(LinkFault::OutOfMemory) => return Err(AllocError),
            Err(_) => return Ok(Some(position)),
        }
    }
    Ok(None)
}

// Adds which item of the list is the link, and where it begins.
fn add_position(diagnostic: &mut DiagnosticDraft, bytes: &[u8], position: usize) {
    diagnostic.place = item_place(bytes, position);
    diagnostic.part.add("link ");
    diagnostic.part.add_display(position);
    diagnostic.part.add(" (from 0)");
}

// Adds the ids of a link that the policies refuse, and what is likely meant.
fn add_link(alloc: Global, diagnostic: &mut DiagnosticDraft, policies: &PolicySet, link: &Link) {
    let id = link.id.as_str();
    let template = link.template.as_str();
    diagnostic.note(&["link `", id, "` of template `", template, "`"]);
    add_meaning(alloc, diagnostic, policies, link, "`args`");
}

// Adds the first link that the policies refuse.
fn add_refused<F: Files>(
    alloc: Global,
    diagnostic: &mut DiagnosticDraft,
    files: &F,
    links: &[Link],
    bytes: &[u8],
    language: Language,
) -> Result<(), AllocError> {
    let Some(mut policies) = policies_again(alloc, files, language)? else {
        return Ok(());
    };
    let refused = first_refused(&mut policies, links);
    if let Ok(Some(position)) = refused {
        add_position(diagnostic, bytes, position);
        if let Some(link) = links.get(position) {
            add_link(alloc, diagnostic, &policies, link);
        }
    }
    drop(policies);
    refused.map(|_| ())
}

// Adds the first link that is not written as one.
fn add_malformed(
    alloc: Global,
    diagnostic: &mut DiagnosticDraft,
    bytes: &[u8],
) -> Result<(), AllocError> {
    note_other_than_list(diagnostic, bytes);
    if let Some(refused) = refused_link(alloc, bytes)? {
        add_position(diagnostic, bytes, refused.position);
        add_fault(diagnostic, &refused.fault);
    }
    Ok(())
}

/// What is explained of a links file that is refused with another number than 501, where policies are read in a language; or none of a
/// number that links do not get.
pub fn explain_links<F: Files>(
    alloc: Global,
    files: &F,
    file: &str,
    number: u16,
    bytes: &[u8],
    language: Language,
) -> Result<Option<Explanation>, AllocError> {
    let Some((reason, hint)) = words_of(number) else {
        return Ok(None);
    };
    let mut diagnostic = DiagnosticDraft::error(alloc, number, reason);
    diagnostic.advise(hint);
    match links_of(alloc, bytes)? {
        Some(links) => add_refused(alloc, &mut diagnostic, files, &links, bytes, language)?,
        None => add_malformed(alloc, &mut diagnostic, bytes)?,
    }
    diagnostic.alone(file).map(Some)
}
