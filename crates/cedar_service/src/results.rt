//! The results that are gathered while the policies of a job run.
ghost use Rattle.std.specs.Prelude.{◌≡◌, OnOk, OnErr};
ghost use Rattle.cedar_service_law.specs.Results.{no_results, allowed_by, decided_by};
ghost use Rattle.cedar_service.specs.Private.Verdicts.{with_verdict};

use crate::response::{Erring, Response};
use cedar_ast::{Decision, Effect};
use cedar_ast_expressions::EvaluationError;
use cedar_value::Text;
use std::alloc::{AllocError, Global};
use std::marker::Model;

/// The ids of the satisfied permits and forbids, and the policies that erred, each list in the order in which they ran.
#[derive(Drop)]
pub(crate) struct Results {
    permits: Vec<Text>,
    forbids: Vec<Text>,
    erring: Vec<Erring>,
}

impl Model for Results {
    ghost use Rattle.cedar_service_law.specs.Results.{Results as ResultsTree};

    ghost Value = { ResultsTree };

    ghost view = { λ r. record { permits = r.permits.items; forbids = r.forbids.items; erring = r.erring.items } };
}

impl Results {
    /// No results. It takes no memory yet.
    pub(crate) fn new(alloc: Global) -> Results
        ensures { result ≡ no_results }
    {
        Results {
            permits: Vec::new(alloc),
            forbids: Vec::new(alloc),
            erring: Vec::new(alloc),
        }
    }

    /// Enters a policy that was run: whether its condition is true, or its error. Refused when out of memory, and nothing is
    /// then entered.
    pub(crate) fn enter(
        &mut self,
        alloc: Global,
        id: &str,
        effect: Effect,
        verdict: Result<bool, EvaluationError>,
    ) -> Result<(), AllocError>
        ensures ok { OnOk result (self.new ≡ with_verdict self.old id.now effect verdict) }
        ensures refused { OnErr result (self.new ≡ self.old) }
    {
        match (effect, verdict) {
            (_, Err(error)) => {
                let policy = Text::read(alloc, id)?;
                self.erring.push(Erring { policy, error })?
            }
            (Effect::Permit, Ok(true)) => self.permits.push(Text::read(alloc, id)?)?,
            (Effect::Forbid, Ok(true)) => self.forbids.push(Text::read(alloc, id)?)?,
            (_, Ok(false)) => {}
        }
        Ok(())
    }

    // Whether no forbid is satisfied and some permit is.
    fn allows(&self) -> bool
        ensures { result ≡ allowed_by self.now }
    {
        self.forbids.is_empty() && !self.permits.is_empty()
    }

    /// The response that the results decide, which takes the lists, and no memory.
    pub(crate) fn into_response(self) -> Response
        ensures { result ≡ decided_by self }
    {
        if self.allows() {
            Response {
                decision: Decision::Allow,
                determining: self.permits,
                erring: self.erring,
            }
        } else {
            Response {
                decision: Decision::Deny,
                determining: self.forbids,
                erring: self.erring,
            }
        }
    }
}
