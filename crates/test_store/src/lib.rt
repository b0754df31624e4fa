//! Tests of stores that change at random: each is compared with a plain store of the same entities.
//!
//! - `choices` makes changes from a seed, `entities` makes uids and entities of them.
//! - `versions` has both stores of the entities after a change, and `questions` compares what they answer.
//! - `random` has the test of a few uids, `many` that of many uids in the order of their hashes.
//!
//! The tests of a crate are proved with the whole crate once more, so that this one has a crate of its own.
#![tactic(auto)]

#[cfg(test)]
mod choices;
#[cfg(test)]
mod entities;
#[cfg(test)]
mod many;
#[cfg(test)]
mod passing;
#[cfg(test)]
mod questions;
#[cfg(test)]
mod random;
#[cfg(test)]
mod versions;
