//! Laws of requests: what is proved of their definitions alone.
ghost use Rattle.cedar_conform.specs.Exactness.{DenotedPartsHaveNoFault, DenotedRequestsFit, DenotedRequestsHaveNoFault, OneRequest};
ghost use Rattle.cedar_conform.specs.RequestsWithEntities.{OneRequestWithEntities, PlainLinesMeanTheSame, RequestsWithEntitiesFit, RequestsWithEntitiesHaveNoFault, WorldsForRequestsConform};

use cedar_conform_entities::changed_worlds_conform;
use cedar_conform_values::{one_written_uid, read_values_belong};

/// A request that a line denotes for a schema fits the schema (Cedar documentation, validation). A law: it runs no code.
pub fn denoted_requests_fit()
    ensures { DenotedRequestsFit }
{
    // A value that JSON denotes for a type belongs to the type.
    read_values_belong();
}

/// No line denotes two requests for a schema that lists its entity types and actions in order, as `Schema::well_formedness`
/// says of each schema. A law: it runs no code.
pub fn one_request()
    ensures { OneRequest }
{
    // JSON denotes at most one uid.
    one_written_uid();
}

/// A line that denotes a request for a schema has no fault for it, if the schema lists its entity types and actions in order and
/// declares the types to which its actions apply, as `Schema::well_formedness` says of each schema. So such a line is refused only
/// when out of memory (Cedar documentation, validation). A law: it runs no code.
pub fn denoted_requests_have_no_fault()
    ensures { DenotedRequestsHaveNoFault }
{
    // JSON denotes at most one uid.
    one_written_uid();
}

/// Like [`denoted_requests_have_no_fault`], for a request in parts. A law: it runs no code.
pub fn denoted_parts_have_no_fault()
    ensures { DenotedPartsHaveNoFault }
{}

/// A request that a line with entities denotes for a schema fits the schema (Cedar documentation, validation). A law: it runs no
/// code.
pub fn requests_with_entities_fit()
    ensures { RequestsWithEntitiesFit }
{
    // A value that JSON denotes for a type belongs to the type.
    read_values_belong();
}

/// The world that a line with entities makes for its request conforms to the schema where the world before does. A law: it runs
/// no code.
pub fn worlds_for_requests_conform()
    ensures { WorldsForRequestsConform }
{
    // After changes that a JSON denotes, a world that conforms still conforms.
    changed_worlds_conform();
}

/// A line with entities denotes one request, and its worlds for it have the same entities; and such a line has no fault. It is so for
/// a schema that lists its entity types and actions in order and declares the types to which its actions apply, as
/// `Schema::well_formedness` says of each schema. So such a line is refused only when out of memory, and otherwise gives that request
/// and those entities. A law: it runs no code.
pub fn requests_with_entities_are_exact()
    ensures one { OneRequestWithEntities }
    ensures no_fault { RequestsWithEntitiesHaveNoFault }
{
    // JSON denotes at most one uid.
    one_written_uid();
}

/// A line without the key `entities` denotes with entities what it denotes without, and has the same faults. A law: it runs no
/// code.
pub fn plain_lines_mean_the_same()
    ensures { PlainLinesMeanTheSame }
{}
