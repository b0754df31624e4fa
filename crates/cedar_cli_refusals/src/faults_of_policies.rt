//! The rows of docs/REFUSALS.md, `Faults of policies`. tools/documents/refusals writes this file.
use crate::row::Row;

/// Refusals of a policy.
pub(crate) const ROWS: [Row; 8] = [
    Row {
        number: 601,
        refused: "a policy",
        when: "a policy names an entity type or an action that the schema does not declare, or with `--language 4` a uid of an enumerated type whose id is not in the list of the type",
        example: "`permit(principal == Ghost::\"x\", action, resource);`",
        remedy: "declare it, or correct the name or the id; write its namespace, too",
    },
    Row {
        number: 602,
        refused: "a policy",
        when: "an optional attribute is read without a guard",
        example: "`permit(principal, action, resource) when { principal.age >= 18 };`",
        remedy: "write `principal has age && principal.age >= 18`",
    },
    Row {
        number: 603,
        refused: "a policy",
        when: "an attribute is read that is not declared",
        example: "`permit(principal, action, resource) when { resource.size > 0 };`",
        remedy: "correct the name, or declare the attribute",
    },
    Row {
        number: 604,
        refused: "a policy",
        when: "mismatched types: the sides of `==`, the branches of `if`, the members of a set",
        example: "`permit(principal, action, resource) when { [1, \"a\"].contains(1) };`",
        remedy: "use values of one type",
    },
    Row {
        number: 605,
        refused: "a policy",
        when: "an empty set",
        example: "`permit(principal, action, resource) when { [] == [1] };`",
        remedy: "give the set a member, or use `isEmpty()`",
    },
    Row {
        number: 606,
        refused: "a policy",
        when: "an operand has the wrong type",
        example: "`permit(principal, action, resource) when { 1 + \"a\" == 2 };`",
        remedy: "compare with `docs/TYPING.md`",
    },
    Row {
        number: 607,
        refused: "a policy",
        when: "the argument of `decimal`, `ip`, `datetime` or `duration` is not a string literal, or the literal does not write a value of the type (with `--any-decimal`, `decimal` takes any string that is not a literal)",
        example: "`permit(principal, action, resource) when { decimal(\"1.\") == decimal(\"1.00\") };`",
        remedy: "write a literal as `docs/GRAMMAR.md` shows it, a decimal with one to four digits after the point; if your data stores decimals as strings, see `--any-decimal` in `docs/TYPING.md`",
    },
    Row {
        number: 650,
        refused: "a policy",
        when: "a warning: no request can satisfy the policy",
        example: "`forbid(principal, action == Action::\"read\", resource);`, an action that applies to nothing",
        remedy: "correct the policy, or remove it: a `forbid` that no request can satisfy forbids nothing",
    },
];
