//! The rows of docs/REFUSALS.md, `Schemas`. tools/documents/refusals writes this file.
use crate::row::Row;

/// Refusals of the schema file.
pub(crate) const ROWS: [Row; 10] = [
    Row {
        number: 301,
        refused: "the schema file",
        when: "the schema is not UTF-8, not JSON, or nested deeper than 127",
        example: "`{`",
        remedy: "find the mistake with a JSON tool, for example `jq . schema.json`",
    },
    Row {
        number: 301,
        refused: "the schema file",
        when: "the same",
        example: "128 times `[` 128 times `]`",
        remedy: "as above",
    },
    Row {
        number: 302,
        refused: "the schema file",
        when: "the JSON has the wrong form: an unknown key, a value of the wrong JSON type, a key or a name that is not an identifier or path, a shape or context that is not a record",
        example: "`{\"\":{\"entityTypes\":{\"A\":{\"x\":1}}}}`",
        remedy: "compare with `docs/SCHEMA.md`",
    },
    Row {
        number: 303,
        refused: "the schema file",
        when: "a type, or an action in `memberOf`, is not declared; or an extension type is read only with `--language 4`",
        example: "`{\"\":{\"entityTypes\":{\"A\":{\"memberOfTypes\":[\"B\"]}}}}`",
        remedy: "declare it, or correct the name",
    },
    Row {
        number: 304,
        refused: "the schema file",
        when: "a common type refers to itself",
        example: "`{\"\":{\"commonTypes\":{\"A\":{\"type\":\"B\"},\"B\":{\"type\":\"A\"}}}}`",
        remedy: "break the circle of common types",
    },
    Row {
        number: 305,
        refused: "the schema file",
        when: "an action is a member of itself, directly or through others",
        example: "`{\"\":{\"actions\":{\"a\":{\"memberOf\":[{\"id\":\"b\"}]},\"b\":{\"memberOf\":[{\"id\":\"a\"}]}}}}`",
        remedy: "break the circle of `memberOf`",
    },
    Row {
        number: 306,
        refused: "the schema file",
        when: "a reserved name: the word `__cedar`, an entity type `Action`, a common type with the name of a built-in type; with `--language 4` a type of a namespace with the name of one in the empty namespace",
        example: "`{\"\":{\"entityTypes\":{\"Action\":{}}}}`",
        remedy: "choose another name",
    },
    Row {
        number: 307,
        refused: "the schema file",
        when: "a record has `additionalAttributes` true",
        example: "`{\"\":{\"entityTypes\":{\"A\":{\"shape\":{\"type\":\"Record\",\"additionalAttributes\":true}}}}}`",
        remedy: "list the attributes",
    },
    Row {
        number: 308,
        refused: "the schema file",
        when: "an `appliesTo` lacks `principalTypes` or `resourceTypes`",
        example: "`{\"\":{\"entityTypes\":{\"A\":{}},\"actions\":{\"a\":{\"appliesTo\":{\"principalTypes\":[\"A\"]}}}}}`",
        remedy: "write both lists",
    },
    Row {
        number: 309,
        refused: "the schema file",
        when: "a shape, a context or a common type has more than 10,000 nodes or is higher than 100, with its common types expanded",
        example: "`{\"\":{\"commonTypes\":{\"A\":` 100 times `{\"type\":\"Set\",\"element\":` `{\"type\":\"Long\"}` 100 times `}` `}}}`",
        remedy: "make the type smaller",
    },
];
