//! Whether the uids that an entity writes are ones that their types have.
ghost use Rattle.std.specs.Prelude.{◌≡◌};
ghost use Rattle.std.specs.List.{list_all};
ghost use Rattle.cedar_schema_spec.specs.Enumerated.{entity_listed, is_listed};

use cedar_schema::Schema;
use cedar_store::Entity;
use cedar_value::Uid;

/// Whether each uid that the entity writes is one that its type has: its own, those of its parents, and those in its attributes. An
/// enumerated type has the uids of its ids alone, and each other type has all (Cedar RFC 53). Takes no memory.
pub(crate) fn is_listed(schema: &Schema, entity: &Entity) -> bool
    ensures { result ≡ entity_listed schema.now entity.now }
{
    schema.lists_uid(&entity.uid)
        && are_listed(schema, &entity.parents)
        && schema.lists_record(&entity.attrs)
}

fn are_listed(schema: &Schema, uids: &[Uid]) -> bool
    ensures { result ≡ list_all (is_listed schema.now) uids.now }
{
    for uid in uids {
        if !schema.lists_uid(uid) {
            return false;
        }
    }
    true
}
