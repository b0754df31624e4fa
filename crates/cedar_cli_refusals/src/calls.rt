//! The rows of docs/REFUSALS.md, `Answered by calls`. tools/documents/refusals writes this file.
use crate::row::Row;

/// Refusals of a call of a library.
pub(crate) const ROWS: [Row; 6] = [
    Row {
        number: 2,
        refused: "a call of a library",
        when: "a read from the source of request lines failed",
        example: "a broken pipe as standard input",
        remedy: "what was written are the answers to the lines that were read whole: send the others again",
    },
    Row {
        number: 3,
        refused: "a call of a library",
        when: "a write to the sink of answers or of a report failed",
        example: "standard output to a full disk",
        remedy: "what was written is a beginning of the answers or of the report: make room and send the lines again",
    },
    Row {
        number: 701,
        refused: "a call of a library",
        when: "the code of a policy would have more than 1,000,000 instructions",
        example: "a set of 1,000,000 literals",
        remedy: "split the policy",
    },
    Row {
        number: 801,
        refused: "a call of a library",
        when: "`step` or `take` with a number that no job has, or whose job was taken",
        example: "a second `take` of a job",
        remedy: "take each answer once",
    },
    Row {
        number: 802,
        refused: "a call of a library",
        when: "`take` of a job that still has policies to run",
        example: "a `take` after ten steps of a job whose only policy has ten instructions",
        remedy: "step the job until a step returns true",
    },
    Row {
        number: 803,
        refused: "a call of a library",
        when: "18,446,744,073,709,551,615 jobs were opened, or as many versions published",
        example: "",
        remedy: "make a new service",
    },
];
