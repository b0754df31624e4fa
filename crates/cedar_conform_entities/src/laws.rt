//! Laws of entities: what is proved of their definitions alone.
ghost use Rattle.cedar_conform_entities.specs.Changes.{ChangedWorldsConform};
ghost use Rattle.cedar_conform_entities.specs.Denotes.{DenotedWorldsConform};
ghost use Rattle.cedar_conform_entities.specs.Exactness.{ChangedWorldsHaveNoFault, OneChangedWorld, OneWorld, WorldsHaveNoFault};
ghost use Rattle.cedar_conform_entities.specs.Worlds.{SoundEntitiesConform};

use cedar_conform_values::read_values_belong;
use cedar_schema::actions_conform;

/// Entities of declared types, with attributes of their shapes and direct parents of declared types from which their own
/// descend, are with the schema's actions a world that conforms. What is above an entity is then of a type from which its own
/// descends, however far up. A law: it runs no code.
pub fn sound_entities_conform()
    ensures { SoundEntitiesConform }
{
    // The schema's actions conform to it.
    actions_conform();
}

/// A world that a JSON denotes for a schema conforms to it. A law: it runs no code.
pub fn denoted_worlds_conform()
    ensures { DenotedWorldsConform }
{
    // Values that are read belong to their types, and entities of declared types conform.
    read_values_belong();
    sound_entities_conform();
}

/// After changes that a JSON denotes, a world that conforms still conforms. A law: it runs no code.
pub fn changed_worlds_conform()
    ensures { ChangedWorldsConform }
{
    // Values that are read belong to their types.
    read_values_belong();
}

/// No bytes denote two worlds for a schema, and bytes that denote one have no fault. So such bytes are refused only when out of
/// memory, and otherwise give that world. A law: it runs no code.
pub fn denoted_worlds_are_exact()
    ensures one { OneWorld }
    ensures no_fault { WorldsHaveNoFault }
{}

/// Worlds that bytes of changes denote after one have the same entities, and bytes that denote one have no fault. So such bytes
/// are refused only when out of memory, and otherwise give those entities. A law: it runs no code.
pub fn changed_worlds_are_exact()
    ensures one { OneChangedWorld }
    ensures no_fault { ChangedWorldsHaveNoFault }
{}
