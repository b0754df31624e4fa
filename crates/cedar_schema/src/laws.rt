//! Laws of reading schemas: what is proved of the definitions alone.
ghost use Rattle.cedar_schema.specs.Cycles.{CyclesAreFound};
ghost use Rattle.cedar_schema.specs.Languages.{ProfileSchemasAreKept};
ghost use Rattle.cedar_schema.specs.Written.{ActionsAreWritten, NamesAreKept, TypesAreWritten, UidsAreKept};

/// The schema of an object of namespaces has the entity types and the actions that its entries write, and no others. Lists that
/// are put in order keep their elements. A law: it runs no code.
pub fn schemas_are_written()
    ensures types { TypesAreWritten }
    ensures actions { ActionsAreWritten }
    ensures names { NamesAreKept }
    ensures uids { UidsAreKept }
{}

/// Expanding common types gives 304 exactly where one of them leads to itself. A law: it runs no code.
pub fn cycles_are_found()
    ensures { CyclesAreFound }
{}

/// Each schema of the profile whose names mean the same in Cedar 4 is the same schema there: bytes that denote a schema in the profile
/// denote it in Cedar 4 too, if no definition of a namespace has the name of one in the empty namespace, and no common type is called
/// `Bool` or `EntityOrCommon`. A law: it runs no code.
pub fn profile_schemas()
    ensures { ProfileSchemasAreKept }
{}
