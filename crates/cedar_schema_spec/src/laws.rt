//! Laws of what schemas declare.
ghost use Rattle.cedar_schema_spec.specs.Conformance.{ActionsConform};
ghost use Rattle.cedar_schema_spec.specs.Declarations.{ActionDescentsAreDecided, ActionTypesAreDecided, ActionsAreDecided, ChainsOfActions, TypeDescentsAreDecided};

/// The tests for declared actions and their types, and for descents, are true exactly where the relations hold. A law: it runs
/// no code.
pub fn tests_of_schemas_decide()
    ensures actions { ActionsAreDecided }
    ensures action_types { ActionTypesAreDecided }
    ensures action_descents { ActionDescentsAreDecided }
    ensures type_descents { TypeDescentsAreDecided }
{}

/// In the world of a schema's actions, what is above an action is what it descends from, and this world conforms. A law: it
/// runs no code.
pub fn actions_conform()
    ensures chains { ChainsOfActions }
    ensures conforms { ActionsConform }
{}
