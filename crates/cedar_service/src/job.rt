//! Jobs: requests that are being answered.
ghost use Rattle.std.specs.Prelude.{◌≡◌, ◌<◌, nat_lt, length, All, Contains, IfOk, IsOk, OnErr, is_some, option_copied};
ghost use Rattle.cedar_ast.specs.Response.{ErringTree};
ghost use Rattle.cedar_code.specs.Machine.{start};
ghost use Rattle.cedar_schema_spec.specs.Conformance.{Fits};
ghost use Rattle.cedar_check_spec.specs.Soundness.{IsAllowedWith};
ghost use Rattle.cedar_service_law.specs.Jobs.{IsFresh, is_finished};
ghost use Rattle.cedar_service_law.specs.Results.{decided_by};
ghost use Rattle.cedar_service.specs.Private.Kept.{IsBegun};
ghost use Rattle.cedar_service.specs.Private.Steps.{StepsTo};
ghost use Rattle.cedar_service.specs.Runs.{IsRunOf};
ghost use Rattle.cedar_service.specs.Private.Verdicts.{verdict_of, verdict_at};

use crate::response::Response;
use crate::results::Results;
use cedar_ast_expressions::EvaluationError;
use cedar_auth::Ready;
use cedar_code::Outcome;
use cedar_machine::Resting;
use cedar_service_law::runs_end_as_evaluated;
use cedar_value::{Request, ValueKind};
use std::alloc::{AllocError, Global};
use std::marker::Model;
use std::sync::Arc;

/// A request that is being answered by one version: the positions of the policies that it runs, how many of them it ran, what
/// they gave, and the current run. Contracts see it as a `JobTree`.
#[derive(Drop)]
pub(crate) struct Job {
    version: Arc<Ready, Global>,
    request: Request,
    positions: Vec<usize>,
    done: usize,
    results: Results,
    run: Option<Resting>,
}

impl Model for Job {
    ghost use Rattle.std.specs.Prelude.{drop};
    ghost use Rattle.std.specs.Coded.{codes};
    ghost use Rattle.cedar_value.specs.Private.DatumCode.{datum_code};
    ghost use Rattle.cedar_schema_types.specs.Private.TypeCode.{type_code};
    ghost use Rattle.cedar_ast_expressions.specs.Private.ExpressionCode.{expression_code};
    ghost use Rattle.cedar_service_law.specs.Jobs.{JobTree};
    ghost use Rattle.cedar_service.specs.Private.Parts.{policies_at};
    ghost use Rattle.cedar_service.specs.Private.Kept.{configuration_of, IsKept};

    ghost Value = { JobTree };

    ghost coded = { Prim.hlevel (codes, datum_code, type_code, expression_code) };

    ghost view = { λ j. record {
      version = j.version.value;
      request = j.request;
      left = policies_at j.version.value.policies.policies (drop j.done j.positions.items);
      results = j.results;
      configuration = configuration_of j.run;
    } };

    ghost invariant = { λ j. IsKept j.version.value j.request j.positions.items j.done j.results j.run };
}

// The run of the policy at a place among the positions, before its first step, if there is such a policy.
fn begin(
    alloc: Global,
    version: &Ready,
    positions: &[usize],
    place: usize,
) -> Result<Option<Resting>, AllocError>
    requires { All (λ k. k < length version.now.policies.policies) positions.now }
    ensures under_way { IfOk result (λ r. is_some r ≡ nat_lt place (length positions.now)) }
    ensures at_start { IfOk result IsBegun }
{
    if place < positions.len() {
        let (code, _, _) = version.part(positions[place]);
        Ok(Some(Resting::new(alloc, code)?))
    } else {
        Ok(None)
    }
}

// What an end means for a policy: whether its condition is true, or its error.
fn verdict(outcome: &Outcome) -> Result<bool, EvaluationError>
    ensures { result ≡ verdict_of outcome.now }
{
    match outcome {
        Outcome::Value(value) => match value.kind() {
            ValueKind::Boolean(true) => Ok(true),
            _ => Ok(false),
        },
        Outcome::Error(error) => Err(*error),
        Outcome::StackFault => Ok(false),
    }
}

// What the end of a run means for its policy, where the run has ended.
fn ended(alloc: Global, run: &Resting) -> Result<Option<Result<bool, EvaluationError>>, AllocError>
    ensures { IfOk result (λ v. v ≡ verdict_at run.now.configuration) }
{
    match run.outcome(alloc)? {
        Some(outcome) => Ok(Some(verdict(&outcome))),
        None => Ok(None),
    }
}

// Replaces a run that has ended by the next one.
fn put_run(run: &mut Option<Resting>, next: Option<Resting>)
    ensures { run.new ≡ next }
{
    *run = next;
}

// A copy of positions.
fn copied(alloc: Global, positions: &[usize]) -> Result<Vec<usize>, AllocError>
    ensures { IfOk result (λ copy. copy.items ≡ positions.now) }
{
    Vec::from_slice(alloc, positions)
}

impl Job {
    /// A job of a version for a request that fits its schema, before its first step. It runs the version's candidates.
    pub(crate) fn new(
        alloc: Global,
        version: Arc<Ready, Global>,
        request: Request,
    ) -> Result<Job, AllocError>
        requires { Fits version.value.schema request }
        ensures fresh { IfOk result (λ j. IsFresh version.value j) }
        ensures request { IfOk result (λ j. j.request ≡ request) }
    {
        let positions = copied(alloc, version.candidates(&request))?;
        let run = begin(alloc, &version, &positions, 0)?;
        Ok(Job {
            version,
            request,
            positions,
            done: 0,
            results: Results::new(alloc),
            run,
        })
    }

    /// Whether no policy is left to run.
    pub(crate) fn is_finished(&self) -> bool
        ensures { result ≡ is_finished self.now }
    {
        self.run.is_none()
    }

    /// The current run, lent. None where the job is finished.
    pub(crate) fn running(&self) -> Option<&Resting>
        ensures { IsRunOf self.now (option_copied result) }
    {
        self.run.as_ref()
    }

    /// One instruction, or the end of a run and the beginning of the next; true where the job is now finished. A finished job
    /// stays as it is, and takes no memory. Refused when out of memory, and nothing is then changed.
    pub(crate) fn step(&mut self, alloc: Global) -> Result<bool, AllocError>
        ensures ok { IfOk result (λ finished. StepsTo self.old self.old.left finished self.new) }
        ensures refused { OnErr result (self.new ≡ self.old) }
    {
        let Some(run) = &mut self.run else {
            return Ok(true);
        };
        let (code, id, effect) = self.version.part(self.positions[self.done]);
        let Some(verdict) = ended(alloc, run)? else {
            run.step(alloc, code, &self.request, self.version.store())?;
            return Ok(false);
        };
        // A run ends as its policy's condition evaluates, and its error is one that the version's settings leave.
        runs_end_as_evaluated();
        self.version.soundness();
        let next = begin(alloc, &self.version, &self.positions, self.done + 1)?;
        self.results.enter(alloc, id, effect, verdict)?;
        self.done += 1;
        let finished = next.is_none();
        put_run(&mut self.run, next);
        Ok(finished)
    }

    /// The response of a finished job, which takes its lists, and no memory. The errors that it names are overflow and
    /// missing entity alone, or a decimal error where the version's settings have `any_decimal` on.
    pub(crate) fn into_response(self) -> Response
        ensures decided { result ≡ decided_by self.results }
        ensures errors { (x : ErringTree) → Contains result.erring x → IsAllowedWith self.version.settings x.error }
    {
        self.results.into_response()
    }
}
