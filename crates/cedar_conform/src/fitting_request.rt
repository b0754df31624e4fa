//! Requests with their environments.
use cedar_value::Request;

/// A request that fits the schema for which it was read, and the position of its environment, from 0, among those of the schema. What
/// depends on the action and the types alone is found there without a search.
#[derive(Drop)]
pub struct FittingRequest {
    /// The request.
    pub request: Request,
    /// The position of its environment in `Schema::environments`.
    pub environment: usize,
}
