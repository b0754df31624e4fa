//! Which effect rules while the policies run one after another.
ghost use Rattle.std.specs.Prelude.{◌≡◌, false};
ghost use Rattle.std.specs.Bool.{OnTrue};
ghost use Rattle.cedar_machine.specs.Verdict.{Verdict};
ghost use Rattle.cedar_auth.specs.Private.Ruling.{decision_by, ruled};

use cedar_ast::{Decision, Effect};
use cedar_ast_expressions::EvaluationError;

/// Whether the same effect rules, however a policy of this effect ends.
pub(crate) fn is_settled(ruling: Option<Effect>, effect: Effect) -> bool
    ensures { OnTrue result ((v : Verdict) → ruled ruling effect v ≡ ruling) }
{
    match ruling {
        Some(Effect::Forbid) => true,
        Some(Effect::Permit) => effect == Effect::Permit,
        None => false,
    }
}

/// Which effect rules after one more policy: to forbid where some forbid is satisfied, else to permit where some permit is.
pub(crate) fn ruled(
    ruling: Option<Effect>,
    effect: Effect,
    verdict: Result<bool, EvaluationError>,
) -> Option<Effect>
    ensures { result ≡ ruled ruling effect verdict }
{
    match (ruling, verdict) {
        (Some(Effect::Forbid), _) => Some(Effect::Forbid),
        (_, Ok(true)) => Some(effect),
        _ => ruling,
    }
}

/// The decision, by the effect that rules.
pub(crate) fn decision_by(ruling: Option<Effect>) -> Decision
    ensures { result ≡ decision_by ruling }
{
    match ruling {
        Some(Effect::Permit) => Decision::Allow,
        _ => Decision::Deny,
    }
}
