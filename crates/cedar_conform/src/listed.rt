//! Whether the uids that a request writes are ones that their types have.
ghost use Rattle.std.specs.Prelude.{◌≡◌, true, false, MatchResult};
ghost use Rattle.cedar_schema_spec.specs.Enumerated.{request_listed};
ghost use Rattle.cedar_conform_values.specs.declared.conform_fault.ConformFault.TheVariants.{UnknownType};

use cedar_conform_values::ConformFault;
use cedar_schema::Schema;
use cedar_value::Request;

/// The request, or 503 where it writes a uid that its type does not have: its principal, its resource, or one in its context. An
/// enumerated type has the uids of its ids alone, and each other type has all (Cedar RFC 53). Takes no memory.
#[inline(always)]
pub(crate) fn listed_request(schema: &Schema, request: Request) -> Result<Request, ConformFault>
    ensures { MatchResult result
        (λ q. (q ≡ request) × (request_listed schema.now request ≡ true))
        (λ f. (f ≡ UnknownType) × (request_listed schema.now request ≡ false)) }
{
    if schema.lists_request(&request) {
        return Ok(request);
    }
    drop(request);
    Err(ConformFault::UnknownType)
}
