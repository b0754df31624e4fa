//! The rows of docs/REFUSALS.md, `Policies in JSON`. tools/documents/refusals writes this file.
use crate::row::Row;

/// Refusals of a policy file in JSON.
pub(crate) const ROWS: [Row; 10] = [
    Row {
        number: 203,
        refused: "a policy file in JSON",
        when: "an object repeats a key, anywhere in the file",
        example: "`{\"effect\":\"forbid\",\"effect\":\"permit\",\"principal\":{\"op\":\"All\"},\"action\":{\"op\":\"All\"},\"resource\":{\"op\":\"All\"},\"conditions\":[]}`",
        remedy: "write each key once",
    },
    Row {
        number: 213,
        refused: "a policy file in JSON",
        when: "the policies are not JSON, not UTF-8, or nested deeper than 127",
        example: "`{`",
        remedy: "find the mistake with a JSON tool, for example `jq . policies.json`",
    },
    Row {
        number: 213,
        refused: "a policy file in JSON",
        when: "the same",
        example: "128 times `{\"a\":` `1` 128 times `}`",
        remedy: "as above",
    },
    Row {
        number: 213,
        refused: "a policy file in JSON",
        when: "the same",
        example: "`{\"a\":\"` the byte FF `\"}`",
        remedy: "save the file as UTF-8",
    },
    Row {
        number: 214,
        refused: "a policy file in JSON",
        when: "the JSON is neither a policy, which has the key `effect`, nor a set of exactly `staticPolicies`, `templates` and `templateLinks`",
        example: "`{\"staticPolicies\":{}}`",
        remedy: "write all three, the last two perhaps as `{}` and `[]`",
    },
    Row {
        number: 214,
        refused: "a policy file in JSON",
        when: "a policy has an unknown key, lacks one, or has a value of the wrong form",
        example: "`{\"effect\":\"permit\",\"principal\":{\"op\":\"All\"},\"action\":{\"op\":\"All\"},\"resource\":{\"op\":\"All\"}}`",
        remedy: "compare with `docs/GRAMMAR.md`; here `\"conditions\":[]` is missing",
    },
    Row {
        number: 214,
        refused: "a policy file in JSON",
        when: "the same, in an expression",
        example: "`{\"effect\":\"permit\",\"principal\":{\"op\":\"All\"},\"action\":{\"op\":\"All\"},\"resource\":{\"op\":\"All\"},\"conditions\":[{\"kind\":\"when\",\"body\":true}]}`",
        remedy: "write an object with one key, here `{\"Value\":true}`",
    },
    Row {
        number: 214,
        refused: "a policy file in JSON",
        when: "a policy at `staticPolicies` has a slot",
        example: "`{\"staticPolicies\":{\"p\":{\"effect\":\"permit\",\"principal\":{\"op\":\"==\",\"slot\":\"?principal\"},\"action\":{\"op\":\"All\"},\"resource\":{\"op\":\"All\"},\"conditions\":[]}},\"templates\":{},\"templateLinks\":[]}`",
        remedy: "write it at `templates`",
    },
    Row {
        number: 214,
        refused: "a policy file in JSON",
        when: "a template has no slot",
        example: "`{\"staticPolicies\":{},\"templates\":{\"t\":{\"effect\":\"permit\",\"principal\":{\"op\":\"All\"},\"action\":{\"op\":\"All\"},\"resource\":{\"op\":\"All\"},\"conditions\":[]}},\"templateLinks\":[]}`",
        remedy: "write it at `staticPolicies`",
    },
    Row {
        number: 214,
        refused: "a policy file in JSON",
        when: "a uid is not an object with `type` and `id`",
        example: "`{\"staticPolicies\":{},\"templates\":{},\"templateLinks\":[{\"templateId\":\"t\",\"newId\":\"l\",\"values\":{\"?principal\":\"User::\\\"ann\\\"\"}}]}`",
        remedy: "write `{\"type\":\"User\",\"id\":\"ann\"}`",
    },
];
