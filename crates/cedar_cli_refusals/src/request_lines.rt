//! The rows of docs/REFUSALS.md, `Request lines`. tools/documents/refusals writes this file.
use crate::row::Row;

/// Refusals of a request line.
pub(crate) const ROWS: [Row; 11] = [
    Row {
        number: 501,
        refused: "a request line",
        when: "the line is not JSON, not UTF-8, or nested deeper than 127; an empty line, too",
        example: "`{\"principal\":`",
        remedy: "write each request on one line, for example with `jq -c . request.json`",
    },
    Row {
        number: 501,
        refused: "a request line",
        when: "the same",
        example: "128 times `[` 128 times `]`",
        remedy: "as above",
    },
    Row {
        number: 502,
        refused: "a request line",
        when: "the JSON has the wrong form: not an object, an unknown key, a uid is missing",
        example: "`{\"principal\":\"User::\\\"ann\\\"\"}`",
        remedy: "send `principal`, `action`, `resource` and perhaps `context`",
    },
    Row {
        number: 502,
        refused: "a request line",
        when: "a uid is not valid",
        example: "`{\"principal\":\"ann\",\"action\":\"Action::\\\"delete\\\"\",\"resource\":\"Doc::\\\"d\\\"\"}`",
        remedy: "write a uid as `User::\\\"ann\\\"`, or as an object with `type` and `id`",
    },
    Row {
        number: 503,
        refused: "a request line",
        when: "the type of the principal or the resource is not declared; with `--language 4` also: one of them, or a uid in the context, is of an enumerated type, and its id is not in the list of the type",
        example: "`{\"principal\":\"Ghost::\\\"x\\\"\",\"action\":\"Action::\\\"delete\\\"\",\"resource\":\"Doc::\\\"d\\\"\"}`",
        remedy: "declare it, or correct the name",
    },
    Row {
        number: 504,
        refused: "a request line",
        when: "the context is not an object, or has an attribute of the wrong type",
        example: "`{\"principal\":\"User::\\\"ann\\\"\",\"action\":\"Action::\\\"view\\\"\",\"resource\":\"Doc::\\\"d\\\"\",\"context\":{\"n\":\"1\"}}`",
        remedy: "write a value of the type that the schema has for the context of the action",
    },
    Row {
        number: 505,
        refused: "a request line",
        when: "the context lacks a required attribute",
        example: "`{\"principal\":\"User::\\\"ann\\\"\",\"action\":\"Action::\\\"view\\\"\",\"resource\":\"Doc::\\\"d\\\"\"}`",
        remedy: "add it, or declare it with `\"required\":false`",
    },
    Row {
        number: 506,
        refused: "a request line",
        when: "the context has an attribute that is not declared",
        example: "`{\"principal\":\"User::\\\"ann\\\"\",\"action\":\"Action::\\\"delete\\\"\",\"resource\":\"Doc::\\\"d\\\"\",\"context\":{\"n\":1}}`",
        remedy: "remove it, or declare it",
    },
    Row {
        number: 509,
        refused: "a request line",
        when: "a number of the context is not a whole number of 64 bits",
        example: "`{\"principal\":\"User::\\\"ann\\\"\",\"action\":\"Action::\\\"view\\\"\",\"resource\":\"Doc::\\\"d\\\"\",\"context\":{\"n\":1.5}}`",
        remedy: "write a whole number of 64 bits, without a point and without an exponent",
    },
    Row {
        number: 510,
        refused: "a request line",
        when: "the action is not declared",
        example: "`{\"principal\":\"User::\\\"ann\\\"\",\"action\":\"Action::\\\"fly\\\"\",\"resource\":\"Doc::\\\"d\\\"\"}`",
        remedy: "declare it, or correct its name",
    },
    Row {
        number: 511,
        refused: "a request line",
        when: "the action does not apply to the types of the principal and the resource",
        example: "`{\"principal\":\"User::\\\"ann\\\"\",\"action\":\"Action::\\\"delete\\\"\",\"resource\":\"User::\\\"ann\\\"\"}`",
        remedy: "use another action, or correct `appliesTo` in the schema",
    },
];
