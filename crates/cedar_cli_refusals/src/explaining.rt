//! The text on a number.
use crate::row::Row;
use crate::{
    calls, entities, faults_of_policies, links, memory, policies_json, policy_texts, request_lines,
    schema_texts, schemas,
};
use std::alloc::{AllocError, Global};
use std::fmt::Write;

// Appends what a row says.
fn push_row(text: &mut String, row: &Row) -> Result<(), AllocError> {
    if row.when != "the same" {
        let number = row.number;
        let refused = row.refused;
        let when = row.when;
        write!(text, "{number}, {refused}: {when}\n")?;
    }
    if !row.example.is_empty() {
        let example = row.example;
        write!(text, "  example: {example}\n")?;
    }
    if row.remedy != "as above" {
        let remedy = row.remedy;
        write!(text, "  what to do: {remedy}\n")?;
    }
    Ok(())
}

// Appends what these rows say of a number.
fn push_rows(text: &mut String, rows: &[Row], number: u16) -> Result<(), AllocError> {
    for row in rows {
        if row.number == number {
            push_row(text, row)?;
        }
    }
    Ok(())
}

/// What a number of a refusal, a fault or a warning means: when it comes, an example, and what to do, for each file or call that is
/// refused with it. None if there is no such number.
///
/// # Errors
///
/// Fails only when out of memory.
pub fn explain(alloc: Global, number: u16) -> Result<Option<String>, AllocError> {
    let mut text = String::new(alloc);
    push_rows(&mut text, &policy_texts::ROWS, number)?;
    push_rows(&mut text, &policies_json::ROWS, number)?;
    push_rows(&mut text, &schemas::ROWS, number)?;
    push_rows(&mut text, &schema_texts::ROWS, number)?;
    push_rows(&mut text, &faults_of_policies::ROWS, number)?;
    push_rows(&mut text, &links::ROWS, number)?;
    push_rows(&mut text, &entities::ROWS, number)?;
    push_rows(&mut text, &request_lines::ROWS, number)?;
    push_rows(&mut text, &memory::ROWS, number)?;
    push_rows(&mut text, &calls::ROWS, number)?;
    Ok(if text.is_empty() { None } else { Some(text) })
}
