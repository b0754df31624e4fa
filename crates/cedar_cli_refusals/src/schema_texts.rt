//! The rows of docs/REFUSALS.md, `Schema texts`. tools/documents/refusals writes this file.
use crate::row::Row;

/// Refusals of a schema file in the Cedar schema syntax.
pub(crate) const ROWS: [Row; 10] = [
    Row {
        number: 310,
        refused: "a schema file in the Cedar schema syntax",
        when: "a syntax error at the offset; at the end of the text the offset is its length",
        example: "`entity User` at 11",
        remedy: "look at what is before the offset, and compare with `docs/SCHEMA.md`; here the `;` is missing",
    },
    Row {
        number: 310,
        refused: "a schema file in the Cedar schema syntax",
        when: "no token begins at the offset",
        example: "`entity User-Group;` at 11",
        remedy: "remove the character, or write another name; at 0 it is often a byte order mark",
    },
    Row {
        number: 310,
        refused: "a schema file in the Cedar schema syntax",
        when: "a string is not closed",
        example: "`action \"view;` at 7, the opening quote",
        remedy: "add the closing quote",
    },
    Row {
        number: 310,
        refused: "a schema file in the Cedar schema syntax",
        when: "a string has a backslash that does not begin an escape, or the escape `\\*`",
        example: "`action \"a\\q\";` at 7, the opening quote",
        remedy: "write `\\\\` for a backslash, or an escape from `docs/GRAMMAR.md`",
    },
    Row {
        number: 310,
        refused: "a schema file in the Cedar schema syntax",
        when: "a type has more than 100 levels",
        example: "`type A = ` 100 times `Set<` `Long` 100 times `>` `;` at 409, the level that is too deep",
        remedy: "make the type smaller",
    },
    Row {
        number: 311,
        refused: "a schema file in the Cedar schema syntax",
        when: "an entity type, an action or a common type is declared twice in a namespace",
        example: "`entity User; entity User;` at 20, the second name",
        remedy: "declare it once",
    },
    Row {
        number: 311,
        refused: "a schema file in the Cedar schema syntax",
        when: "a namespace is opened twice",
        example: "`namespace A { entity B; } namespace A { entity C; }` at 36, the second name",
        remedy: "write all of it in one place",
    },
    Row {
        number: 311,
        refused: "a schema file in the Cedar schema syntax",
        when: "a record has an attribute twice",
        example: "`entity User { age: Long, age: String };` at 25, the second name",
        remedy: "write it once",
    },
    Row {
        number: 311,
        refused: "a schema file in the Cedar schema syntax",
        when: "`appliesTo` has `principal`, `resource` or `context` twice",
        example: "`entity User; action view appliesTo { principal: User, resource: User, resource: User };` at 70, the second word",
        remedy: "write it once, with a list of types",
    },
    Row {
        number: 311,
        refused: "a schema file in the Cedar schema syntax",
        when: "an annotation is repeated",
        example: "`@doc(\"a\") @doc(\"b\") entity User;` at 11, the second name",
        remedy: "write it once",
    },
];
