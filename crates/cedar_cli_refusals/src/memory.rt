//! The rows of docs/REFUSALS.md, `Memory`. tools/documents/refusals writes this file.
use crate::row::Row;

/// Refusals of the program.
pub(crate) const ROWS: [Row; 1] = [Row {
    number: 1,
    refused: "the program",
    when: "out of memory",
    example: "`permit(principal, action, resource) when { ` 3,000,000 times `(`",
    remedy: "give the process more memory, and divide a policy text of more than 4 GiB. The answers to some first lines may have been written, each of them whole: send the other lines again",
}];
