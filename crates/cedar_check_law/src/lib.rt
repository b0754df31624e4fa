//! The laws of strict typing: what validation accepts is safe to evaluate, and there is one typing and one report.
//!
//! The definitions are in `specs/` of cedar_check_spec. Each law is the contract of a function with an empty body.
//!
//! A policy that is accepted for a schema is safe to evaluate. [`typing_is_sound`] says that, for every request that fits the
//! schema and every world that conforms to it, its condition is a Boolean, or a number left the 64 bits, or an entity was
//! missing. Nothing else can go wrong. Under the setting `any_decimal` there is a third error: a string that does not write a
//! decimal.
#![tactic(auto)]

ghost use Rattle.cedar_check_spec.specs.Candidates.{CandidatesAreEnough, FalseOnesMayGo};
ghost use Rattle.cedar_check_spec.specs.Determined.{AcceptedHaveNoFaultWith, FaultsAreRefusalsWith, ImpossibleHasNoFaultWith, KnownGainsNothingWith, ReportIsOneWith, TypingIsOneWith};
ghost use Rattle.cedar_check_spec.specs.Languages.{AcceptanceIsKept, ReportsAreKept};
ghost use Rattle.cedar_check_spec.specs.Soundness.{PremisesAreMet, PremisesAreMetWith, SoundAcceptance, SoundAcceptanceWith, SoundReplacement, SoundResponse, SoundResponseWith, SoundTyping, SoundTypingWith};

use cedar_check_spec::Settings;

/// An expression that has a type evaluates to a member of the type, or overflows, or meets an absent entity. Where it is true,
/// what it gains holds. To replace `action` by the request's action changes no evaluation. So the condition of an accepted
/// policy is a Boolean, or one of the two errors, and no response names another error (cedar-spec, Lean: Cedar.Thm.Validation).
/// Some schema, world, request and policy meet the premises.
///
/// The statement covers all settings: under the setting `any_decimal` the error `decimal` is possible too. The clauses without
/// `with` are its reading with no setting on. A law: it runs no code.
pub fn typing_is_sound()
    ensures typing { SoundTyping }
    ensures replacement { SoundReplacement }
    ensures acceptance { SoundAcceptance }
    ensures response { SoundResponse }
    ensures premises { PremisesAreMet }
    ensures typing_with { (settings : Settings) → SoundTypingWith settings }
    ensures acceptance_with { (settings : Settings) → SoundAcceptanceWith settings }
    ensures response_with { (settings : Settings) → SoundResponseWith settings }
    ensures premises_with { (settings : Settings) → PremisesAreMetWith settings }
{}

/// Typing leaves no choice, whatever the settings. An expression has at most one type and gains at most one set of
/// capabilities, and what is known true or known false gains nothing. Policies have one list of faults and one of warnings.
/// There is a fault exactly where a policy is not accepted in an environment, so policies have no fault exactly where each of
/// them is accepted. A policy that no request can satisfy has no fault. A law: it runs no code.
pub fn typing_is_determined()
    ensures typing { (settings : Settings) → TypingIsOneWith settings }
    ensures known { (settings : Settings) → KnownGainsNothingWith settings }
    ensures report { (settings : Settings) → ReportIsOneWith settings }
    ensures faults { (settings : Settings) → FaultsAreRefusalsWith settings }
    ensures accepted { (settings : Settings) → AcceptedHaveNoFaultWith settings }
    ensures impossible { (settings : Settings) → ImpossibleHasNoFaultWith settings }
{}

/// A policy whose scope cannot be met in the request's environment, because of the types of its entities or the action, is
/// false, whether it is accepted or not. To leave out policies that are false changes no response. A law: it runs no code.
pub fn candidates_are_enough()
    ensures others { CandidatesAreEnough }
    ensures response { FalseOnesMayGo }
{}

/// The language has no part in validation: settings that take the same choices accept the same policies, and give the same report.
/// A law: it runs no code.
pub fn validation_in_each_language()
    ensures acceptance { AcceptanceIsKept }
    ensures report { ReportsAreKept }
{}
