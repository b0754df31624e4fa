//! The types of contexts, and contexts that are absent.
ghost use Rattle.std.specs.Prelude.{◌≡◌, IsTrue};
ghost use Rattle.serde_json.specs.Data.{no_members, object};
ghost use Rattle.cedar_schema_types.specs.Types.{record_of, is_record};
ghost use Rattle.cedar_conform_values.specs.Reads.{ReadsRecord};
ghost use Rattle.cedar_conform_values.specs.Values.{value_read};

use cedar_conform_values::{ConformFault, read_record};
use cedar_schema_types::{RecordType, Type, TypeKind};
use cedar_value::Record;
use serde_json::{Map, Value as Json};
use std::alloc::Global;

/// The attributes of a type of records, as each context type is.
pub(crate) fn record_type(ty: &Type) -> &RecordType
    requires { IsTrue (is_record ty.now) }
    ensures { record_of result.now ≡ ty.now }
{
    match ty.kind() {
        TypeKind::Record(attributes) => attributes,
        _ => unreachable!(),
    }
}

/// The context of a request without one, for a type of records.
pub(crate) fn no_context(alloc: Global, ty: &Type) -> Result<Record, ConformFault>
    requires { IsTrue (is_record ty.now) }
    ensures { ReadsRecord result (value_read ty.now (object no_members)) }
{
    absent_context(alloc, record_type(ty))
}

/// The context of a request without one, for a type of records with these attributes: what the empty object writes. For a type without
/// attributes it takes no memory.
pub(crate) fn absent_context(alloc: Global, attributes: &RecordType) -> Result<Record, ConformFault>
    ensures { ReadsRecord result (value_read (record_of attributes.now) (object no_members)) }
{
    if attributes.attributes().is_empty() {
        return Ok(Record::new(alloc));
    }
    read_record(alloc, attributes, &Json::Object(Map::new(alloc)))
}
