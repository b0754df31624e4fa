//! Requests from their parts.
ghost use Rattle.std.specs.Prelude.{◌≡◌, ◌≢◌, ◌⊎◌, [], Some, None, Contains, IfErr, IfOk, IsTrue, MatchResult};
ghost use Rattle.serde_json.specs.Data.{Data};
ghost use Rattle.cedar_value.specs.Names.{IsName};
ghost use Rattle.cedar_value.specs.Datum.{fields_of, record_of as record_datum};
ghost use Rattle.cedar_value.specs.declared.request.Request.{Request as RequestTree};
ghost use Rattle.cedar_schema_types.specs.Types.{is_record};
ghost use Rattle.cedar_schema_spec.specs.Conformance.{Fits};
ghost use Rattle.cedar_conform_values.specs.Values.{value_read};
ghost use Rattle.cedar_conform_values.specs.declared.conform_fault.ConformFault.TheVariants.{Json as JsonFault, OutOfMemory, Shape as ShapeFault};
ghost use Rattle.cedar_conform.specs.Places.{IsPlacedAt};
ghost use Rattle.cedar_conform.specs.Parts.{AreNamed, PartsDenote, PartsHaveFault, context_json, parts_of, uid_of};
ghost use Rattle.cedar_conform.specs.Private.PartsAnswers.{AreUidsOf, IsUidOf};

use crate::context::{absent_context, record_type};
use crate::fitting_request::FittingRequest;
use crate::listed::listed_request;
use crate::request::{RequestUids, context_type};
use crate::request_reader::RequestReader;
use crate::request_rooms::RequestRooms;
use crate::uid_room::UidRoom;
use crate::uids::named_uid;
use base_json::JsonReader;
use cedar_conform_values::{ConformFault, Names, read_record, read_values_belong};
use cedar_schema::Schema;
use cedar_schema_types::Type;
use cedar_value::{Record, Request, Uid};
use std::alloc::Global;

/// A uid in parts: the type and the id of an entity, as `User` and `ann` of `User::"ann"`.
#[derive(Clone, Copy)]
pub struct UidParts<'p> {
    /// The type.
    pub ty: &'p str,
    /// The id, without quotation marks and escapes.
    pub id: &'p str,
}

/// A request in parts, for hosts that have no request line.
#[derive(Clone, Copy)]
pub struct RequestParts<'p> {
    /// Who asks.
    pub principal: UidParts<'p>,
    /// What they want to do.
    pub action: UidParts<'p>,
    /// To what.
    pub resource: UidParts<'p>,
    /// The context, as the bytes of a JSON object. Of no bytes, it is the empty object.
    pub context: &'p [u8],
}

/// The request that the parts denote for the schema, with the position of its environment (Cedar documentation, entities and context in
/// JSON). The reader keeps its buffers from request to request.
///
/// # Errors
///
/// 1 when out of memory, and otherwise 501 to 506 or 509 to 511 only where that fault is in the parts: 502 for a type that is not
/// a name, and 501 for a context that is not JSON.
pub fn read_fitting_parts(
    alloc: Global,
    schema: &Schema,
    parts: &RequestParts<'_>,
    reader: &mut RequestReader,
) -> Result<FittingRequest, ConformFault>
    ensures denotes { IfOk result (λ found. PartsDenote schema.now (parts_of parts.now) found.request) }
    ensures fits { IfOk result (λ found. Fits schema.now found.request) }
    ensures placed { IfOk result (λ found. IsPlacedAt schema.now found.request found.environment) }
    ensures only { (q : RequestTree) → PartsDenote schema.now (parts_of parts.now) q → MatchResult result (λ found. found.request ≡ q) (λ e. e ≡ OutOfMemory) }
    ensures refused { IfErr result (λ e. e ≢ OutOfMemory → PartsHaveFault schema.now (parts_of parts.now) e) }
{
    // A schema lists its types and actions in order, and the types that an action applies to are declared. A JSON that is read
    // for a type gives a value of the type.
    schema.well_formedness();
    read_values_belong();
    match request_of_parts(alloc, schema, parts, reader) {
        Ok(request) => Ok(FittingRequest {
            request,
            environment: reader.rooms.environment,
        }),
        Err(fault) => Err(fault),
    }
}

fn request_of_parts(
    alloc: Global,
    schema: &Schema,
    parts: &RequestParts<'_>,
    reader: &mut RequestReader,
) -> Result<Request, ConformFault>
    ensures answer { MatchResult result (PartsDenote schema.now (parts_of parts.now)) (λ e. e ≢ OutOfMemory → PartsHaveFault schema.now (parts_of parts.now) e) }
    ensures placed { IfOk result (λ q. IsPlacedAt schema.now q reader.new.rooms.environment) }
{
    let uids = uids_of_parts(alloc, &mut reader.names, &mut reader.rooms, parts)?;
    let ty = context_type(schema, &mut reader.rooms, &uids)?;
    let context = read_context_bytes(alloc, ty, parts.context, &mut reader.json)?;
    let request = Request {
        principal: uids.principal,
        action: uids.action,
        resource: uids.resource,
        context,
    };
    listed_request(schema, request)
}

// The uids of the parts.
fn uids_of_parts(
    alloc: Global,
    names: &mut Names,
    rooms: &mut RequestRooms,
    parts: &RequestParts<'_>,
) -> Result<RequestUids, ConformFault>
    ensures { MatchResult result
        (AreUidsOf (parts_of parts.now))
        (λ e. e ≢ OutOfMemory → (e ≡ ShapeFault) × ¬ AreNamed (parts_of parts.now)) }
{
    let principal = uid_of_parts(alloc, names, &mut rooms.principal, &parts.principal)?;
    let action = uid_of_parts(alloc, names, &mut rooms.action, &parts.action)?;
    let resource = uid_of_parts(alloc, names, &mut rooms.resource, &parts.resource)?;
    Ok(RequestUids {
        principal,
        action,
        resource,
    })
}

// The uid of a type and an id.
fn uid_of_parts(
    alloc: Global,
    names: &mut Names,
    room: &mut UidRoom,
    parts: &UidParts<'_>,
) -> Result<Uid, ConformFault>
    ensures { MatchResult result
        (IsUidOf (uid_of parts.now))
        (λ e. e ≢ OutOfMemory → (e ≡ ShapeFault) × ¬ IsName parts.now.ty.now) }
{
    match named_uid(alloc, names, room, parts.ty, parts.id)? {
        Some(uid) => Ok(uid),
        None => Err(ConformFault::Shape),
    }
}

// The context that bytes write as a value of its type.
fn read_context_bytes(
    alloc: Global,
    ty: &Type,
    bytes: &[u8],
    reader: &mut JsonReader,
) -> Result<Record, ConformFault>
    requires { IsTrue (is_record ty.now) }
    ensures { MatchResult result
        (λ pairs. (d : Data) × (context_json bytes.now ≡ Some d) × ((value_read ty.now d).faults ≡ []) × (record_datum (fields_of pairs) ≡ (value_read ty.now d).value))
        (λ e. e ≢ OutOfMemory → ((e ≡ JsonFault) × (context_json bytes.now ≡ None))
        ⊎ ((d : Data) × (context_json bytes.now ≡ Some d) × Contains (value_read ty.now d).faults e)) }
{
    let attributes = record_type(ty);
    if bytes.is_empty() {
        return absent_context(alloc, attributes);
    }
    match reader.read(alloc, bytes)? {
        Some(json) => read_record(alloc, attributes, &json),
        None => Err(ConformFault::Json),
    }
}
