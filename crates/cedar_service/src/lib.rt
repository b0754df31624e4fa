//! Requests in flight: it answers many requests side by side, step by step, while new policies are published.
//!
//! ```
//! use cedar_service::Service;
//!
//! let mut service = Service::new(alloc, ready)?;
//! let job = service.open(line)?;
//! // Other jobs may be opened, stepped and taken here, and other versions published: this job keeps its own.
//! while !service.step(job)? {}
//! let response = service.take(job)?;
//! assert_eq!(rt; response.decision, Decision::Allow);
//! ```
//!
//! A host calls it between its own waits. The crate has no threads, locks or sockets. Each call is one event of
//! cedar_service_law, whose law says what all of them promise together.
#![tactic(auto)]

mod job;
mod not_published;
mod response;
mod results;
mod service;
mod service_fault;

pub use cedar_service_law::histories_are_fair;
pub use not_published::NotPublished;
pub use response::{Erring, Response};
pub use service::{JobId, Service};
pub use service_fault::ServiceFault;
