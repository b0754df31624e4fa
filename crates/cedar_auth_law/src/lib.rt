//! The law that the whole engine is sound: it joins the law of typing with the law of execution.
//!
//! [`engine_is_sound`] joins the law of typing with the law of execution, over definitions alone. Read
//! `specs/Headline.antt` of cedar_auth_spec first. The contract of the function is the law, and its body only calls the
//! two laws that it follows from.
#![tactic(auto)]

ghost use Rattle.cedar_check_spec.specs.declared.settings.Settings.{Settings};
ghost use Rattle.cedar_auth_spec.specs.Headline.{EngineIsSound, EngineIsSoundWith, PremisesAreMet, PremisesAreMetWith};

use cedar_check_law::typing_is_sound;
use cedar_code::execution_is_evaluation;

/// For a schema, policies that strict validation accepts, a world that conforms and a request that fits: every policy's code
/// runs without stack fault, type error, decimal error or missing attribute. It takes at most as many steps as it has
/// instructions, and its only errors are overflow and a missing entity. The response is Cedar's: forbid overrides permit,
/// policies that err are skipped and named, and determining ones are named (Cedar language reference, authorization;
/// cedar-spec, Lean: Cedar.Thm). Some schema, policies, world and request meet all premises.
///
/// The statement covers all settings: under the setting `any_decimal` a decimal error is possible too. The clauses without
/// `with` are its reading with no setting on. A law: it runs no code.
pub fn engine_is_sound()
    ensures sound { EngineIsSound }
    ensures premises { PremisesAreMet }
    ensures sound_with { (settings : Settings) → EngineIsSoundWith settings }
    ensures premises_with { (settings : Settings) → PremisesAreMetWith settings }
{
    // The code of a policy executes as the policy evaluates, and a policy that has a type evaluates soundly.
    execution_is_evaluation();
    typing_is_sound();
}
