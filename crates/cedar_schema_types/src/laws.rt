//! Laws of types: what is proved of their definitions alone.
ghost use Rattle.cedar_schema_types.specs.Joins.{JoinIsByName, JoinIsComputed, MembersStay};

/// What `join` computes is the relation of three types that has one rule for each row of its definition. Record types join name
/// by name. A law: it runs no code.
pub fn join_is_the_relation()
    ensures relation { JoinIsComputed }
    ensures by_name { JoinIsByName }
{}

/// A value that belongs to one of two types belongs to what they join to. A law: it runs no code.
pub fn members_of_joined_types()
    ensures { MembersStay }
{}
