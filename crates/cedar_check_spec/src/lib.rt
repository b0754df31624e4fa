//! Strict typing, as definitions: the rules, which policies are accepted, and what a report is.
//!
//! Read the definitions in `specs/` in this order:
//!
//! - `Settings`: the choices beyond strict validation that a service may take. Names that end in `With` or
//!   `_with` take them; those without mean that none is taken.
//! - `Capabilities`: what is known to be there, for example `principal.name` after `principal has name`.
//! - `Typing`: the rules, as a relation between what is held, an expression, its type and what it gains.
//! - `Acceptance`: which policies are accepted and which are impossible, with the action of an environment in
//!   the place of `action`.
//! - `Soundness`: what a typing promises of evaluation. This is what validation is for.
//! - `Reports`: the faults and the warnings that a checker reports of policies; `Determined`: that there is one
//!   such report, and one typing.
//! - `Candidates`: which policies a request can satisfy, according to their scopes alone.
//! - `Rows`: the rules of single operators as functions, which the functions of cedar_check_operators compute.
//!
//! That typing is sound is proved in cedar_check_law.
#![tactic(auto)]

mod settings;

pub use settings::Settings;
