//! The laws of histories.
ghost use Rattle.cedar_service_law.specs.Fair.{EveryHistoryIsFair};
ghost use Rattle.cedar_service_law.specs.Jobs.{RunsEndAsEvaluated};

use cedar_code::execution_is_evaluation;

/// Every history of a service is fair, whatever events fall between those of a job. The answer taken for a job is the response
/// to its request in the version that was current when the job was opened, and a bound on the job's own steps finishes it. A
/// law: it runs no code.
pub fn histories_are_fair()
    ensures { EveryHistoryIsFair }
{
    // The code of a policy executes as the policy evaluates.
    execution_is_evaluation();
}

/// However a policy's code runs to an end, it ends as the policy's condition evaluates. A law: it runs no code.
pub fn runs_end_as_evaluated()
    ensures { RunsEndAsEvaluated }
{
    // The code of a policy executes as the policy evaluates.
    execution_is_evaluation();
}
