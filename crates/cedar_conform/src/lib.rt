//! Reads request lines and links from their JSON, and tests whether a request fits a schema.
//!
//! ```rust
//! use cedar_conform::{fits, read_entities, read_request};
//!
//! let store = read_entities(alloc, &schema, entities)?;
//! let request = read_request(alloc, &schema, line)?;
//! assert!(rt; fits(&schema, &request));
//! ```
//!
//! To read many lines, use [`read_request_with`], whose [`RequestReader`] is kept from line to line. [`read_fitting_request`] does the same,
//! and also gives the position of the request's environment in the schema. So does [`read_fitting_parts`] for a host without lines, which
//! gives the parts of a request. Lines that bring entities of their own are read with [`read_request_with_entities`]
//! (`specs/RequestsWithEntities.antt`). Entities are read by cedar_conform_entities, values and uids by cedar_conform_values.
#![tactic(auto)]

mod context;
mod fields;
mod fields_with_entities;
mod fitting;
mod fitting_request;
mod guesses;
mod laws;
mod links;
mod listed;
mod parts;
mod plain_request;
mod request;
mod request_reader;
mod request_rooms;
mod request_with_entities;
mod uid_room;
mod uids;

pub use cedar_conform_entities::{
    changed_worlds_are_exact, changed_worlds_conform, denoted_worlds_are_exact,
    denoted_worlds_conform, read_changes, read_entities, read_entities_owned,
    sound_entities_conform, upsert_entities,
};
pub use cedar_conform_values::{
    ConformFault, is_member, is_record_member, one_written_uid, read_record, read_value,
    read_values_belong, uid_of_object, written_uid,
};
pub use fitting::fits;
pub use fitting_request::FittingRequest;
pub use laws::{
    denoted_parts_have_no_fault, denoted_requests_fit, denoted_requests_have_no_fault, one_request,
    plain_lines_mean_the_same, requests_with_entities_are_exact, requests_with_entities_fit,
    worlds_for_requests_conform,
};
pub use links::read_links;
pub use parts::{RequestParts, UidParts, read_fitting_parts};
pub use request::{read_fitting_request, read_request, read_request_with};
pub use request_reader::RequestReader;
pub use request_with_entities::read_request_with_entities;
