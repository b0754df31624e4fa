//! The authoriser: policies that strict validation accepts, entities that conform to the schema, and the answers to requests.
//!
//! ```
//! use cedar_auth::{Ready, Validated, serve};
//!
//! let validated = Validated::new(alloc, schema, policies)?;
//! let ready = Ready::new(alloc, validated, &entities_json)?;
//! if ready.fits(&request) {
//!     let response = ready.answer(alloc, &request)?;
//!     assert_eq!(rt; response.decision, Decision::Allow);
//! }
//! // Or line by line, from a source of request lines to a sink of answer lines:
//! serve(alloc, &ready, &mut source, &mut sink)?;
//! ```
//!
//! [`engine_is_sound`] is the promise of the engine as a whole: read `specs/Headline.antt` of cedar_auth_spec first. What
//! answers a line is defined in `specs/AnswerLine.antt`. Policies are accepted by strict validation as it is documented, or
//! under settings (`Validated::new_with`). The settings stay with the policies and say which errors their answers may name.
//!
//! A request may bring entities of its own: [`Ready::answer_with`] answers it over changes of the entities that are for it alone, and
//! [`serve_with_entities`] lines that have a fifth key `entities` (`specs/AnswerLineWithEntities.antt`).
#![tactic(auto)]

mod answer;
mod compiled;
mod crossing;
mod deciding;
mod evaluator;
mod judged;
mod not_ready;
mod not_validated;
mod part;
mod ready;
mod ready_with;
mod response;
mod room;
mod ruling;
mod serving;
mod serving_with;
mod short_answer;
mod tally;
mod told;
mod validated;
mod validation_fault;

pub use base_lines::{
    PiecewiseSink, PiecewiseSource, ReadFailed, ServeFault, Sink, SliceSource, Source, StdSink,
    StdSource, VecSink, WriteFailed,
};
pub use cedar_auth_law::engine_is_sound;
pub use crossing::{ready_crosses, validated_crosses};
pub use deciding::{answer_line, append_fitting_answer, decide_fitting};
pub use not_ready::NotReady;
pub use not_validated::NotValidated;
pub use ready::Ready;
pub use response::{Erring, Response};
pub use serving::{append_fault, serve};
pub use serving_with::serve_with_entities;
pub use validated::Validated;
pub use validation_fault::ValidationFault;
