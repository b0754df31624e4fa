//! Tests of calls that are refused memory: each such call is made once more, and then gives the usual answer.
//!
//! A refused call changed and lost nothing, so the second call gives the usual answer. `tools/memory` runs each test as often as it
//! requests memory, and refuses another of its requests each time. With ample memory no call is made twice.
//!
//! The calls that make policies, a schema and entities ready are in `world.rt`, answers in `answers.rt`, requests in flight in
//! `jobs.rt`.
#![tactic(auto)]

#[cfg(test)]
mod again;
#[cfg(test)]
mod answers;
#[cfg(test)]
mod jobs;
#[cfg(test)]
mod world;
