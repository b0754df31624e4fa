//! Templates that have no link.
use crate::again::links_again;
use cedar_ast::{Link, PolicySet};
use cedar_files::Files;
use std::alloc::{AllocError, Global};
use std::collections::BTreeSet;

/// How many templates of these policies have no link, so that they have no effect and nothing is validated of them. The links of the files
/// are read once more. 0 if they cannot be.
///
/// # Errors
///
/// Fails only when out of memory.
pub fn count_unlinked<F: Files>(
    alloc: Global,
    files: &F,
    policies: &PolicySet,
) -> Result<usize, AllocError> {
    if policies.template_count() == 0 {
        return Ok(0);
    }
    let Some(links) = links_again(alloc, files)? else {
        return Ok(0);
    };
    let count = count_without(alloc, policies, &links);
    drop(links);
    count
}

// How many templates none of these links names.
fn count_without(alloc: Global, policies: &PolicySet, links: &[Link]) -> Result<usize, AllocError> {
    let mut linked = BTreeSet::new(alloc);
    for link in links {
        linked.insert(link.template.as_str())?;
    }
    let mut count = 0usize;
    for position in 0..policies.template_count() {
        if let Some(template) = policies.template(position) {
            if !linked.contains(template.id().as_str()) {
                count = count.saturating_add(1);
            }
        }
    }
    Ok(count)
}
