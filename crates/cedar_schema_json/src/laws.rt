//! Laws of the JSON of types: what is proved of their definitions alone.
ghost use Rattle.cedar_schema_json.specs.LookedUp.{AttributesAreLookedUp, TypesAreLookedUp};

/// The type that an object writes depends on the values at its keys `element` and `attributes`, looked up by the key. A law: it
/// runs no code.
pub fn members_are_looked_up()
    ensures types { TypesAreLookedUp }
    ensures attributes { AttributesAreLookedUp }
{}
