//! The rows of docs/REFUSALS.md, `Links`. tools/documents/refusals writes this file.
use crate::row::Row;

/// Refusals of the links file.
pub(crate) const ROWS: [Row; 10] = [
    Row {
        number: 204,
        refused: "the links file",
        when: "a policy, a template or another link has the link's id",
        example: "`[{\"template_id\":\"r\",\"link_id\":\"p\",\"args\":{\"?resource\":\"Doc::\\\"d\\\"\"}}]`",
        remedy: "give each link its own id",
    },
    Row {
        number: 204,
        refused: "the links file",
        when: "the same",
        example: "`[{\"template_id\":\"r\",\"link_id\":\"l\",\"args\":{\"?resource\":\"Doc::\\\"d\\\"\"}},{\"template_id\":\"r\",\"link_id\":\"l\",\"args\":{\"?resource\":\"Doc::\\\"e\\\"\"}}]`",
        remedy: "as above",
    },
    Row {
        number: 210,
        refused: "the links file",
        when: "no template has the id that a link names",
        example: "`[{\"template_id\":\"p\",\"link_id\":\"l\",\"args\":{}}]`",
        remedy: "name a template: a policy with a slot in its scope",
    },
    Row {
        number: 211,
        refused: "the links file",
        when: "a slot of the template has no uid",
        example: "`[{\"template_id\":\"t\",\"link_id\":\"l\",\"args\":{\"?principal\":\"User::\\\"ann\\\"\"}}]`",
        remedy: "give a uid for each slot",
    },
    Row {
        number: 212,
        refused: "the links file",
        when: "a link gives a uid for a slot that the template does not have",
        example: "`[{\"template_id\":\"r\",\"link_id\":\"l\",\"args\":{\"?principal\":\"User::\\\"ann\\\"\",\"?resource\":\"Doc::\\\"d\\\"\"}}]`",
        remedy: "give uids only for the slots of the template",
    },
    Row {
        number: 501,
        refused: "the links file",
        when: "the links are not UTF-8, not JSON, or nested deeper than 127",
        example: "`[`",
        remedy: "find the mistake with a JSON tool, for example `jq . links.json`",
    },
    Row {
        number: 501,
        refused: "the links file",
        when: "the same",
        example: "128 times `[` 128 times `]`",
        remedy: "as above",
    },
    Row {
        number: 501,
        refused: "the links file",
        when: "the same",
        example: "the byte FF",
        remedy: "save the file as UTF-8",
    },
    Row {
        number: 502,
        refused: "the links file",
        when: "the JSON has the wrong form: not a list, an entry that is not an object, an unknown or missing key, an id that is not a string",
        example: "`[{\"template_id\":\"r\",\"link_id\":\"l\"}]`",
        remedy: "compare with `docs/DATA.md`",
    },
    Row {
        number: 502,
        refused: "the links file",
        when: "the value for a slot is not a uid, or the slot has another name",
        example: "`[{\"template_id\":\"r\",\"link_id\":\"l\",\"args\":{\"?resource\":\"d\"}}]`",
        remedy: "write a uid as `Doc::\\\"d\\\"`, or as an object with `type` and `id`",
    },
];
