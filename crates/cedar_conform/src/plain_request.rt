//! Requests without a context whose uids are in the plain form.
ghost use Rattle.std.specs.Prelude.{◌≡◌, ◌≢◌, Some, IfOk, MatchResult};
ghost use Rattle.serde_json.specs.Data.{Members, object, string};
ghost use Rattle.cedar_conform_values.specs.declared.conform_fault.ConformFault.TheVariants.{OutOfMemory, Shape as ShapeFault};
ghost use Rattle.cedar_conform.specs.Places.{IsPlacedAt};
ghost use Rattle.cedar_conform.specs.Private.Answers.{IsAnswer};
ghost use Rattle.cedar_conform.specs.Private.Fields.{AreFieldsOf, AreWritten, LacksIn, LacksOne, WrittenIn, quoted_fields};

use crate::context::no_context;
use crate::listed::listed_request;
use crate::request::{RequestUids, context_type};
use crate::request_rooms::RequestRooms;
use crate::uid_room::UidRoom;
use crate::uids::quoted_uid;
use base_json::{QuotedText, ThreeQuoted};
use cedar_conform_values::{ConformFault, Names};
use cedar_schema::Schema;
use cedar_value::{Request, Uid};
use std::alloc::Global;

/// The request of a principal, an action and a resource, in this order, without a context.
pub(crate) fn plain_request(
    alloc: Global,
    schema: &Schema,
    names: &mut Names,
    rooms: &mut RequestRooms,
    values: &ThreeQuoted<'_>,
) -> Result<Request, ConformFault>
    ensures answer { (ms : Members) → AreFieldsOf ms (quoted_fields values.now) → IsAnswer schema.now (object ms) result }
    ensures placed { IfOk result (λ q. IsPlacedAt schema.now q rooms.new.environment) }
{
    let uids = plain_uids(alloc, names, rooms, values)?;
    let ty = context_type(schema, rooms, &uids)?;
    let context = no_context(alloc, ty)?;
    let request = Request {
        principal: uids.principal,
        action: uids.action,
        resource: uids.resource,
        context,
    };
    listed_request(schema, request)
}

// The uids of the principal, the action and the resource.
fn plain_uids(
    alloc: Global,
    names: &mut Names,
    rooms: &mut RequestRooms,
    values: &ThreeQuoted<'_>,
) -> Result<RequestUids, ConformFault>
    ensures { MatchResult result (AreWritten (quoted_fields values.now)) (λ e. e ≢ OutOfMemory → (e ≡ ShapeFault) × LacksOne (quoted_fields values.now)) }
{
    let principal = plain_uid(alloc, names, &mut rooms.principal, &values.first)?;
    let action = plain_uid(alloc, names, &mut rooms.action, &values.second)?;
    let resource = plain_uid(alloc, names, &mut rooms.resource, &values.third)?;
    Ok(RequestUids {
        principal,
        action,
        resource,
    })
}

// The uid that a string writes.
fn plain_uid(
    alloc: Global,
    names: &mut Names,
    room: &mut UidRoom,
    text: &QuotedText<'_>,
) -> Result<Uid, ConformFault>
    ensures { MatchResult result
        (WrittenIn (Some (string text.now)))
        (λ e. e ≢ OutOfMemory → (e ≡ ShapeFault) × LacksIn (Some (string text.now))) }
{
    match quoted_uid(alloc, names, room, text)? {
        Some(uid) => Ok(uid),
        None => Err(ConformFault::Shape),
    }
}
