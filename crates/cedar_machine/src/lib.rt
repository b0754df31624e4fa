//! The machine that runs flat code for a request, over a hierarchy of entities.
//!
//! ```rust
//! use cedar_machine::{Machine, Operands, Progress, Resting, run};
//!
//! // All at once, with the end and the count of instructions:
//! let run = run(alloc, &code, &request, &store)?;
//! // Only whether a condition is true, over a stack that the next one uses again:
//! let mut operands = Operands::new(alloc);
//! let satisfied = operands.decide_from(alloc, &code, 0, &request, &store)?;
//! // Or one instruction after another:
//! let mut machine = Machine::new(alloc, &code, &request, &store)?;
//! while machine.step()? == Progress::Going {}
//! // Or with a rest between them, in which it borrows nothing:
//! let mut resting = Resting::new(alloc, &code)?;
//! while resting.step(alloc, &code, &request, &store)? == Progress::Going {}
//! ```
//!
//! What contracts see of a machine is in `specs/`. The steps of an execution are in `cedar_code`, the operand stack and the
//! operators on it in `cedar_machine_stack`.
#![tactic(auto)]

mod deciding;
mod driving;
mod execution;
mod machine;
mod made_sets;
mod making;
mod owning;
mod performing;
mod resting;
mod state;

pub use cedar_code::Outcome;
pub use deciding::Operands;
pub use execution::Run;
pub use machine::{Machine, Progress, run};
pub use resting::Resting;
