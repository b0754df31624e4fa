//! `authorize --explain-lines`: the lines are kept, and those that are refused are explained after they were answered.
use crate::explaining::Explainer;
use crate::host_files::NAME;
use cedar_auth::Ready;
use cedar_files::{read_all, read_schema};
use cedar_files_diagnostics::{
    Diagnostic, Explanation, explain_request, explain_request_with_entities,
};
use cedar_schema::Schema;
use std::alloc::{AllocError, Global};

/// How many lines are explained at most.
const MOST: usize = 20;

// What lines are read according to.
#[derive(Clone, Copy)]
enum Against<'a> {
    // A schema.
    Schema(&'a Schema),
    // What is ready, where lines may bring entities.
    Ready(&'a Ready),
}

impl<'a> Against<'a> {
    // What is explained of a line, if it is refused.
    fn explain(
        self,
        alloc: Global,
        line: &[u8],
        part: &str,
    ) -> Result<Option<Diagnostic>, AllocError> {
        match self {
            Against::Schema(schema) => explain_request(alloc, schema, line, part),
            Against::Ready(ready) => explain_request_with_entities(alloc, ready, line, part),
        }
    }
}

// The first line of some bytes without its line feed, and what follows.
fn first_line(bytes: &[u8]) -> (&[u8], &[u8]) {
    match memchr::memchr(b'\n', bytes) {
        Some(end) => (
            bytes.get(..end).unwrap_or(&[]),
            bytes.get(end.saturating_add(1)..).unwrap_or(&[]),
        ),
        None => (bytes, &[]),
    }
}

// Adds what is explained of a line, if it is refused and there is room; or else counts it.
fn push_line(
    alloc: Global,
    explanation: &mut Explanation,
    against: Against<'_>,
    line: &[u8],
    number: usize,
) -> Result<(), AllocError> {
    let part = format!(in alloc; "line {number}")?;
    if let Some(diagnostic) = against.explain(alloc, line, part.as_str())? {
        if explanation.diagnostics.len() < MOST {
            explanation.diagnostics.push(diagnostic)?;
        } else {
            explanation.more = explanation.more.saturating_add(1);
        }
    }
    Ok(())
}

// What is explained of the lines that are refused.
fn text_of(
    explainer: Explainer<'_>,
    alloc: Global,
    against: Against<'_>,
    input: &[u8],
) -> Result<String, AllocError> {
    let mut explanation = Explanation::new(alloc, NAME)?;
    let mut rest = input;
    for at in 0..input.len() {
        if rest.is_empty() {
            break;
        }
        let (line, others) = first_line(rest);
        push_line(alloc, &mut explanation, against, line, at.saturating_add(1))?;
        rest = others;
    }
    explanation.to_text(alloc, explainer.format)
}

/// Explains each line of the input that is refused for the schema of the files, or for their entities too where lines may bring
/// entities.
pub fn explain_lines(explainer: Explainer<'_>, input: &[u8]) {
    let alloc = explainer.rt.alloc();
    if explainer.words.entities_in_lines {
        if let Ok(ready) = read_all(alloc, explainer.files, explainer.words.settings) {
            explainer.say(text_of(explainer, alloc, Against::Ready(&ready), input));
            drop(ready);
        }
    } else if let Ok(schema) = read_schema(
        alloc,
        explainer.files,
        explainer.words.settings.language,
    ) {
        explainer.say(text_of(explainer, alloc, Against::Schema(&schema), input));
        drop(schema);
    }
}
