//! Requests from JSON.
ghost use Rattle.std.specs.Prelude.{◌≡◌, ◌≢◌, None, IfErr, IfOk, IsTrue, MatchOption, MatchResult, OnOk, option_and_then};
ghost use Rattle.serde_json.specs.Data.{Members, no_members, object};
ghost use Rattle.serde_json.specs.Find.{as_object};
ghost use Rattle.base_json.specs.JsonTree.{json_of};
ghost use Rattle.base_json.specs.Members.{members_to_come};
ghost use Rattle.cedar_schema_spec.specs.Conformance.{Fits};
ghost use Rattle.cedar_schema_types.specs.Types.{is_record};
ghost use Rattle.cedar_schema_spec.specs.SchemaTree.{HasEnvironment, HasNoEnvironment, environments_of};
ghost use Rattle.cedar_schema.specs.Positions.{IsEnvironmentAt};
ghost use Rattle.cedar_value.specs.declared.request.Request.{Request as RequestTree};
ghost use Rattle.cedar_conform_values.specs.Reads.{ReadsRecord};
ghost use Rattle.cedar_conform_values.specs.Values.{value_read};
ghost use Rattle.cedar_conform_values.specs.declared.conform_fault.ConformFault.TheVariants.{OutOfMemory, Shape as ShapeFault};
ghost use Rattle.cedar_conform.specs.Places.{IsPlacedAt};
ghost use Rattle.cedar_conform.specs.Requests.{HasUidsFault, LineDenotes, LineHasFault};
ghost use Rattle.cedar_conform.specs.Private.Answers.{IsAnswer, IsLineAnswer, IsNoJson, IsNoObjectFault};
ghost use Rattle.cedar_conform.specs.Private.Fields.{AreFieldsOf, AreWritten, LacksIn, LacksOne, WrittenIn, begun_fields, context_in, data_in};

use crate::context::{absent_context, record_type};
use crate::fields::Fields;
use crate::fitting_request::FittingRequest;
use crate::listed::listed_request;
use crate::plain_request::plain_request;
use crate::request_reader::RequestReader;
use crate::request_rooms::RequestRooms;
use crate::uid_room::UidRoom;
use crate::uids::lent_uid;
use base_json::{JsonReader, LentValue, MemberReader, ThreeQuoted, TreeFault};
use cedar_conform_values::{
    ConformFault, Names, one_written_uid, read_lent_record, read_record, read_values_belong,
};
use cedar_schema::Schema;
use cedar_schema_types::Type;
use cedar_value::{Record, Request, Uid};
use std::alloc::Global;

/// The uids of a request.
#[derive(Drop)]
pub(crate) struct RequestUids {
    pub(crate) principal: Uid,
    pub(crate) action: Uid,
    pub(crate) resource: Uid,
}

/// The request that the bytes denote for the schema: a JSON object of `principal`, `action`, `resource` and perhaps `context`
/// (Cedar documentation, entities and context in JSON). Each uid is a string such as `User::"ann"` or an object of `type` and
/// `id`.
///
/// # Errors
///
/// 1 when out of memory, and otherwise 501 to 506 or 509 to 511 only where that fault is in the bytes.
pub fn read_request(alloc: Global, schema: &Schema, line: &[u8]) -> Result<Request, ConformFault>
    ensures denotes { IfOk result (LineDenotes schema.now line.now) }
    ensures fits { IfOk result (Fits schema.now) }
    ensures only { (q : RequestTree) → LineDenotes schema.now line.now q → MatchResult result (λ found. found ≡ q) (λ e. e ≡ OutOfMemory) }
    ensures refused { IfErr result (λ e. e ≢ OutOfMemory → LineHasFault schema.now line.now e) }
{
    read_request_with(alloc, schema, line, &mut RequestReader::new(alloc)?)
}

/// Like `read_request`, with a reader that keeps its buffers from line to line.
///
/// # Errors
///
/// Those of [`read_request`].
pub fn read_request_with(
    alloc: Global,
    schema: &Schema,
    line: &[u8],
    reader: &mut RequestReader,
) -> Result<Request, ConformFault>
    ensures denotes { IfOk result (LineDenotes schema.now line.now) }
    ensures fits { IfOk result (Fits schema.now) }
    ensures only { (q : RequestTree) → LineDenotes schema.now line.now q → MatchResult result (λ found. found ≡ q) (λ e. e ≡ OutOfMemory) }
    ensures refused { IfErr result (λ e. e ≢ OutOfMemory → LineHasFault schema.now line.now e) }
{
    // A schema lists its types and actions in order, and the types that an action applies to are declared. A JSON that is read
    // for a type gives a value of the type, and writes at most one uid.
    schema.well_formedness();
    read_values_belong();
    one_written_uid();
    read_line(alloc, schema, line, reader)
}

/// Like [`read_request_with`], and gives the position of the environment of the request too.
///
/// # Errors
///
/// Those of [`read_request`].
pub fn read_fitting_request(
    alloc: Global,
    schema: &Schema,
    line: &[u8],
    reader: &mut RequestReader,
) -> Result<FittingRequest, ConformFault>
    ensures denotes { IfOk result (λ found. LineDenotes schema.now line.now found.request) }
    ensures fits { IfOk result (λ found. Fits schema.now found.request) }
    ensures placed { IfOk result (λ found. IsPlacedAt schema.now found.request found.environment) }
    ensures only { (q : RequestTree) → LineDenotes schema.now line.now q → MatchResult result (λ found. found.request ≡ q) (λ e. e ≡ OutOfMemory) }
    ensures refused { IfErr result (λ e. e ≢ OutOfMemory → LineHasFault schema.now line.now e) }
{
    // As in `read_request_with`.
    schema.well_formedness();
    read_values_belong();
    one_written_uid();
    match read_line(alloc, schema, line, reader) {
        Ok(request) => Ok(FittingRequest {
            request,
            environment: reader.rooms.environment,
        }),
        Err(fault) => Err(fault),
    }
}

fn read_line(
    alloc: Global,
    schema: &Schema,
    line: &[u8],
    reader: &mut RequestReader,
) -> Result<Request, ConformFault>
    ensures answer { IsLineAnswer schema.now line.now result }
    ensures placed { IfOk result (λ q. IsPlacedAt schema.now q reader.new.rooms.environment) }
{
    let RequestReader { json, names, rooms } = reader;
    if let Some(mut members) = json.members(line)? {
        return request_of_members(alloc, schema, names, rooms, &mut members);
    }
    Err(no_object_fault(alloc, line, json))
}

/// Why a line that is not a JSON object is refused.
pub(crate) fn no_object_fault(alloc: Global, line: &[u8], reader: &mut JsonReader) -> ConformFault
    requires { option_and_then as_object (json_of line.now) ≡ None }
    ensures { result ≢ OutOfMemory → IsNoObjectFault line.now result }
{
    match reader.read(alloc, line) {
        Ok(Some(json)) => {
            drop(json);
            ConformFault::Shape
        }
        Ok(None) => ConformFault::Json,
        Err(_) => ConformFault::OutOfMemory,
    }
}

// The request of the members of an object, up to its end and that of its text. Most lines have three members in the plain form, and these
// are read without a look at what else there could be.
fn request_of_members(
    alloc: Global,
    schema: &Schema,
    names: &mut Names,
    rooms: &mut RequestRooms,
    members: &mut MemberReader<'_>,
) -> Result<Request, ConformFault>
    ensures answer { MatchOption (members_to_come no_members members.old) (IsNoJson result) (λ ms. IsAnswer schema.now (object ms) result) }
    ensures placed { IfOk result (λ q. IsPlacedAt schema.now q rooms.new.environment) }
{
    let Some(values) = members.next_three("principal", "action", "resource") else {
        return request_of_rest(alloc, schema, names, rooms, None, members);
    };
    if members.is_at_end() {
        return plain_request(alloc, schema, names, rooms, &values);
    }
    request_of_rest(alloc, schema, names, rooms, Some(values), members)
}

// The request of three members that were read already, or of none, and of those that follow, up to the end of their object and of its
// text. It is not inlined, so that its room is not cleared for lines that do not come to it.
#[inline(never)]
fn request_of_rest<'l>(
    alloc: Global,
    schema: &Schema,
    names: &mut Names,
    rooms: &mut RequestRooms,
    values: Option<ThreeQuoted<'l>>,
    members: &mut MemberReader<'l>,
) -> Result<Request, ConformFault>
    ensures answer { (old : Members) → AreFieldsOf old (begun_fields values.entry)
        → MatchOption (members_to_come old members.old) (IsNoJson result) (λ ms. IsAnswer schema.now (object ms) result) }
    ensures placed { IfOk result (λ q. IsPlacedAt schema.now q rooms.new.environment) }
{
    let mut fields = Fields::begun(values);
    match fields.read(alloc, members) {
        Ok(()) => request_of(alloc, schema, names, rooms, &mut fields),
        Err(fault) => match fault {
            TreeFault::OutOfMemory => Err(ConformFault::OutOfMemory),
            TreeFault::Invalid => Err(ConformFault::Json),
        },
    }
}

/// The request of the values at its keys, which are taken.
pub(crate) fn request_of(
    alloc: Global,
    schema: &Schema,
    names: &mut Names,
    rooms: &mut RequestRooms,
    fields: &mut Fields<'_>,
) -> Result<Request, ConformFault>
    ensures answer { (ms : Members) → AreFieldsOf ms fields.old → IsAnswer schema.now (object ms) result }
    ensures placed { IfOk result (λ q. IsPlacedAt schema.now q rooms.new.environment) }
{
    if !fields.are_known {
        return Err(ConformFault::Shape);
    }
    let uids = read_uids(alloc, names, rooms, fields)?;
    let ty = context_type(schema, rooms, &uids)?;
    let context = read_context(alloc, ty, fields.context.take())?;
    let request = Request {
        principal: uids.principal,
        action: uids.action,
        resource: uids.resource,
        context,
    };
    listed_request(schema, request)
}

// The uids at the three keys, whose values are taken.
fn read_uids(
    alloc: Global,
    names: &mut Names,
    rooms: &mut RequestRooms,
    fields: &mut Fields<'_>,
) -> Result<RequestUids, ConformFault>
    ensures uids { MatchResult result (AreWritten fields.old) (λ e. e ≢ OutOfMemory → (e ≡ ShapeFault) × LacksOne fields.old) }
    ensures context { OnOk result (fields.new.context ≡ fields.old.context) }
{
    let principal = uid_in(alloc, names, &mut rooms.principal, fields.principal.take())?;
    let action = uid_in(alloc, names, &mut rooms.action, fields.action.take())?;
    let resource = uid_in(alloc, names, &mut rooms.resource, fields.resource.take())?;
    Ok(RequestUids {
        principal,
        action,
        resource,
    })
}

fn uid_in(
    alloc: Global,
    names: &mut Names,
    room: &mut UidRoom,
    field: Option<LentValue<'_>>,
) -> Result<Uid, ConformFault>
    ensures { MatchResult result
        (WrittenIn (data_in field.entry))
        (λ e. e ≢ OutOfMemory → (e ≡ ShapeFault) × LacksIn (data_in field.entry)) }
{
    let Some(value) = field else {
        return Err(ConformFault::Shape);
    };
    match lent_uid(alloc, names, room, value)? {
        Some(uid) => Ok(uid),
        None => Err(ConformFault::Shape),
    }
}

/// The type of the context in the environment of the uids. The room keeps the position of this environment.
pub(crate) fn context_type<'s>(
    schema: &'s Schema,
    rooms: &mut RequestRooms,
    uids: &RequestUids,
) -> Result<&'s Type, ConformFault>
    ensures found { MatchResult result
        (λ t. HasEnvironment schema.now.actions uids.now.action uids.now.principal.ty uids.now.resource.ty t.now × IsTrue (is_record t.now))
        (HasUidsFault schema.now uids.now.principal uids.now.action uids.now.resource) }
    ensures placed { OnOk result (IsEnvironmentAt (environments_of schema.now.actions) uids.now.action uids.now.principal.ty uids.now.resource.ty rooms.new.environment) }
{
    // The context of each environment of a schema is a record type.
    schema.well_formedness();
    let slot = rooms.slot(&uids.action);
    match schema.environment(
        &uids.action,
        &uids.principal.ty,
        &uids.resource.ty,
        rooms.guesses.get(slot),
    ) {
        Some(position) => {
            rooms.keep_environment(slot, position);
            Ok(&schema.environments()[position].context)
        }
        None => Err(uids_fault(schema, uids)),
    }
}

// Why the uids have no environment.
fn uids_fault(schema: &Schema, uids: &RequestUids) -> ConformFault
    requires { HasNoEnvironment schema.now.actions uids.now.action uids.now.principal.ty uids.now.resource.ty }
    ensures { HasUidsFault schema.now uids.now.principal uids.now.action uids.now.resource result }
{
    if schema.attributes(&uids.principal.ty).is_none() {
        return ConformFault::UnknownType;
    }
    if schema.attributes(&uids.resource.ty).is_none() {
        return ConformFault::UnknownType;
    }
    if !schema.has_action(&uids.action) {
        return ConformFault::NoSuchAction;
    }
    ConformFault::ActionDoesNotApply
}

/// The context, read as a value of its type.
pub(crate) fn read_context(
    alloc: Global,
    ty: &Type,
    field: Option<LentValue<'_>>,
) -> Result<Record, ConformFault>
    requires { IsTrue (is_record ty.now) }
    ensures { ReadsRecord result (value_read ty.now (context_in field.entry)) }
{
    let attributes = record_type(ty);
    match field {
        Some(value) => match value {
            LentValue::Object(context) => read_lent_record(alloc, attributes, context),
            LentValue::Tree(context) => read_record(alloc, attributes, &context),
            LentValue::String(_) => Err(ConformFault::WrongType),
            LentValue::Quoted(_) => Err(ConformFault::WrongType),
        },
        None => absent_context(alloc, attributes),
    }
}
