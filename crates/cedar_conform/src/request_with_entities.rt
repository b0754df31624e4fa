//! Requests from JSON, with entities.
ghost use Rattle.std.specs.Prelude.{◌≡◌, ◌≢◌, IfErr, IfOk, MatchOption, MatchResult, unwrap_or};
ghost use Rattle.serde_json.specs.Data.{Members, no_members, object};
ghost use Rattle.base_json.specs.Members.{lent_view, members_to_come};
ghost use Rattle.cedar_schema_spec.specs.Conformance.{Conforms, Fits};
ghost use Rattle.cedar_store.specs.Changes.{HaveSameEntities};
ghost use Rattle.cedar_value.specs.World.{World};
ghost use Rattle.cedar_value.specs.declared.request.Request.{Request as RequestTree};
ghost use Rattle.cedar_conform_values.specs.declared.conform_fault.ConformFault.TheVariants.{OutOfMemory};
ghost use Rattle.cedar_conform.specs.RequestsWithEntities.{LineDenotesWithEntities, LineHasFaultWithEntities};
ghost use Rattle.cedar_conform.specs.Private.WithEntities.{AreFieldsWith, IsAnswerWith, IsLineAnswerWith, IsNoJsonWith, IsUpserted, begun_with};

use crate::fields_with_entities::FieldsWithEntities;
use crate::laws::{
    requests_with_entities_are_exact, requests_with_entities_fit, worlds_for_requests_conform,
};
use crate::plain_request::plain_request;
use crate::request::{no_object_fault, request_of};
use crate::request_reader::RequestReader;
use crate::request_rooms::RequestRooms;
use base_json::{LentValue, MemberReader, ThreeQuoted, TreeFault};
use cedar_conform_entities::upsert_entities;
use cedar_conform_values::{ConformFault, Names};
use cedar_schema::Schema;
use cedar_store::Store;
use cedar_value::Request;
use std::alloc::Global;

/// The request that the bytes denote for the schema, and the store for it where they bring entities: a JSON object like that of
/// [`read_request`](crate::read_request), which may have the key `entities`, a list of entries as in a list of entities (Cedar
/// documentation, entities and context in JSON). These are upserted into the store, which stays as it is, also after an error.
/// Without the key there is None, and the store for the request is the one that is lent.
///
/// # Errors
///
/// 1 when out of memory, and otherwise 401, 402 or 501 to 511 only where that fault is in the bytes.
pub fn read_request_with_entities(
    alloc: Global,
    schema: &Schema,
    store: &Store,
    line: &[u8],
    reader: &mut RequestReader,
) -> Result<(Request, Option<Store>), ConformFault>
    ensures denotes { IfOk result (λ r. LineDenotesWithEntities schema.now store.now line.now r.0 (unwrap_or r.1 store.now)) }
    ensures fits { IfOk result (λ r. Fits schema.now r.0) }
    ensures conforms { Conforms schema.now store.now → IfOk result (λ r. Conforms schema.now (unwrap_or r.1 store.now)) }
    ensures only { (q : RequestTree) (w : World) → LineDenotesWithEntities schema.now store.now line.now q w
        → MatchResult result (λ r. (r.0 ≡ q) × HaveSameEntities (unwrap_or r.1 store.now) w) (λ e. e ≡ OutOfMemory) }
    ensures refused { IfErr result (λ e. e ≢ OutOfMemory → LineHasFaultWithEntities schema.now store.now line.now e) }
{
    // The request fits, and the world for it conforms to the schema, which is well formed, where the one before does. There is one
    // request, its worlds have the same entities, and then there is no fault.
    schema.well_formedness();
    requests_with_entities_are_exact();
    requests_with_entities_fit();
    worlds_for_requests_conform();
    read_line(alloc, schema, store, line, reader)
}

fn read_line(
    alloc: Global,
    schema: &Schema,
    store: &Store,
    line: &[u8],
    reader: &mut RequestReader,
) -> Result<(Request, Option<Store>), ConformFault>
    ensures { IsLineAnswerWith schema.now store.now line.now result }
{
    let RequestReader { json, names, rooms } = reader;
    if let Some(mut members) = json.members(line)? {
        return request_of_members(alloc, schema, store, names, rooms, &mut members);
    }
    Err(no_object_fault(alloc, line, json))
}

// The request of the members of an object, up to its end and that of its text. Lines of three members in the plain form bring no
// entities, and are read like those of requests without.
fn request_of_members(
    alloc: Global,
    schema: &Schema,
    store: &Store,
    names: &mut Names,
    rooms: &mut RequestRooms,
    members: &mut MemberReader<'_>,
) -> Result<(Request, Option<Store>), ConformFault>
    ensures { MatchOption (members_to_come no_members members.old) (IsNoJsonWith result) (λ ms. IsAnswerWith schema.now store.now (object ms) result) }
{
    let Some(values) = members.next_three("principal", "action", "resource") else {
        return request_of_rest(alloc, schema, store, names, rooms, None, members);
    };
    if members.is_at_end() {
        let request = plain_request(alloc, schema, names, rooms, &values)?;
        return Ok((request, None));
    }
    request_of_rest(alloc, schema, store, names, rooms, Some(values), members)
}

// The request of three members that were read already, or of none, and of those that follow, up to the end of their object and of its
// text. It is not inlined, so that its room is not cleared for lines that do not come to it.
#[inline(never)]
fn request_of_rest<'l>(
    alloc: Global,
    schema: &Schema,
    store: &Store,
    names: &mut Names,
    rooms: &mut RequestRooms,
    values: Option<ThreeQuoted<'l>>,
    members: &mut MemberReader<'l>,
) -> Result<(Request, Option<Store>), ConformFault>
    ensures { (old : Members) → AreFieldsWith old (begun_with values.entry)
        → MatchOption (members_to_come old members.old) (IsNoJsonWith result) (λ ms. IsAnswerWith schema.now store.now (object ms) result) }
{
    let mut fields = FieldsWithEntities::begun(values);
    match fields.read(alloc, members) {
        Ok(()) => request_of_fields(alloc, schema, store, names, rooms, &mut fields),
        Err(fault) => match fault {
            TreeFault::OutOfMemory => Err(ConformFault::OutOfMemory),
            TreeFault::Invalid => Err(ConformFault::Json),
        },
    }
}

// The request, and then the store for it.
fn request_of_fields(
    alloc: Global,
    schema: &Schema,
    store: &Store,
    names: &mut Names,
    rooms: &mut RequestRooms,
    fields: &mut FieldsWithEntities<'_>,
) -> Result<(Request, Option<Store>), ConformFault>
    ensures { (ms : Members) → AreFieldsWith ms fields.old → IsAnswerWith schema.now store.now (object ms) result }
{
    let request = request_of(alloc, schema, names, rooms, &mut fields.request)?;
    let Some(entries) = &fields.entities else {
        return Ok((request, None));
    };
    let upserted = upsert_lent(alloc, schema, store, entries)?;
    Ok((request, Some(upserted)))
}

// The store after the entries.
fn upsert_lent(
    alloc: Global,
    schema: &Schema,
    store: &Store,
    entries: &LentValue<'_>,
) -> Result<Store, ConformFault>
    ensures { IsUpserted schema.now store.now (lent_view entries.now) result }
{
    match entries {
        LentValue::Tree(json) => upsert_entities(alloc, schema, store, json),
        LentValue::String(_) => Err(ConformFault::Shape),
        LentValue::Quoted(_) => Err(ConformFault::Shape),
        LentValue::Object(_) => Err(ConformFault::Shape),
    }
}
