//! Whether a request fits.
ghost use Rattle.std.specs.Prelude.{◌↔◌, IsTrue};
ghost use Rattle.cedar_schema_spec.specs.Conformance.{Fits};

use crate::context::record_type;
use cedar_conform_values::is_record_member;
use cedar_schema::Schema;
use cedar_value::Request;

/// Whether the request fits the schema: its action is declared and applies to the types of the principal and the resource, its context
/// belongs to the action's context type, and each uid of an enumerated type that it writes is one of the type's (Cedar
/// documentation, validation; Cedar RFC 53). Takes no memory. The number of comparisons is the logarithm of the number of actions,
/// plus the size of the context.
pub fn fits(schema: &Schema, request: &Request) -> bool
    ensures { IsTrue result ↔ Fits schema.now request.now }
{
    // A schema lists its actions in order, and the context type of each environment is a record type.
    schema.well_formedness();
    match schema.context(&request.action, &request.principal.ty, &request.resource.ty) {
        Some(ty) => {
            is_record_member(&request.context, record_type(ty)) && schema.lists_request(request)
        }
        None => false,
    }
}
