//! Requests.
use crate::uid::Uid;
use crate::value_record::Record;

/// A request: who asks to do what to which resource, and in which context
/// (Cedar language reference, authorization requests).
#[derive(Drop)]
pub struct Request {
    /// Who asks.
    pub principal: Uid,
    /// What is to be done.
    pub action: Uid,
    /// To what it is to be done.
    pub resource: Uid,
    /// What else is known of the request.
    pub context: Record,
}
