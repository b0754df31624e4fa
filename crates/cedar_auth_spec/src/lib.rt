//! What the authoriser promises, as definitions.
//!
//! The crate has no code. Read `specs/` in this order:
//!
//! - `Validation`: which policies strict validation accepts for a schema.
//! - `Codes`: the code of a policy.
//! - `Headline`: that every policy's code runs safely, and that the response is Cedar's.
//! - `Candidates`: which policies run for a request, and that each other one is false.
//! - `Ready`: what contracts see of policies that are ready to answer.
//! - `AnswerJson`: the JSON of an answer.
//!
//! That `Headline` holds is proved in cedar_auth_law. The authoriser is cedar_auth.
#![tactic(auto)]
