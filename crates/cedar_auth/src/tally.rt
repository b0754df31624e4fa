//! What is gathered while the policies run.
ghost use Rattle.std.specs.Prelude.{◌≡◌, [], OnOk};
ghost use Rattle.cedar_auth.specs.Private.Tally.{allows, entered, response_by};

use crate::response::{Erring, Response};
use crate::told::Told;
use cedar_ast::{Decision, Effect};
use cedar_ast_expressions::EvaluationError;
use std::alloc::{AllocError, Global};
use std::marker::Model;

/// The satisfied permits and forbids and the policies that erred, each list in the order in which they ran. Its lists
/// are used again from request to request. Contracts see it as a `TallyTree`.
#[derive(Drop)]
pub struct Tally<'p> {
    permits: Vec<&'p str>,
    forbids: Vec<&'p str>,
    erring: Vec<Erring<'p>>,
}

impl<'p> Model for Tally<'p> {
    ghost use Rattle.std.specs.Prelude.{map};
    ghost use Rattle.cedar_auth.specs.Private.Tally.{TallyTree};

    ghost Value = { TallyTree };

    ghost view = { λ t. record {
      permits = map (λ id. id.now) t.permits.items;
      forbids = map (λ id. id.now) t.forbids.items;
      erring = t.erring.items;
    } };
}

impl<'p> Tally<'p> {
    /// A tally of nothing. It takes no memory yet.
    pub(crate) fn new(alloc: Global) -> Tally<'p>
        ensures { result ≡ record { permits = []; forbids = []; erring = [] } }
    {
        Tally {
            permits: Vec::new(alloc),
            forbids: Vec::new(alloc),
            erring: Vec::new(alloc),
        }
    }

    /// Empties the lists, and keeps their room.
    pub(crate) fn clear(&mut self)
        ensures { self.new ≡ record { permits = []; forbids = []; erring = [] } }
    {
        self.permits.clear();
        self.forbids.clear();
        self.erring.clear();
    }

    /// Enters a policy that was run: whether its condition is true, or its error.
    pub(crate) fn enter(
        &mut self,
        id: &'p str,
        effect: Effect,
        verdict: Result<bool, EvaluationError>,
    ) -> Result<(), AllocError>
        ensures { OnOk result (self.new ≡ entered self.old id.entry.now effect verdict) }
    {
        match (effect, verdict) {
            (_, Err(error)) => self.erring.push(Erring { policy: id, error })?,
            (Effect::Permit, Ok(true)) => self.permits.push(id)?,
            (Effect::Forbid, Ok(true)) => self.forbids.push(id)?,
            (_, Ok(false)) => {}
        }
        Ok(())
    }

    // Whether no forbid is satisfied and some permit is.
    fn allows(&self) -> bool
        ensures { result ≡ allows self.now }
    {
        self.forbids.is_empty() && !self.permits.is_empty()
    }

    /// The response, lent: `allow` where some permit is satisfied and no forbid is.
    pub(crate) fn told(&self) -> Told<'_, 'p>
        ensures { result ≡ response_by self.now }
    {
        if self.allows() {
            Told {
                decision: Decision::Allow,
                determining: &self.permits,
                erring: &self.erring,
            }
        } else {
            Told {
                decision: Decision::Deny,
                determining: &self.forbids,
                erring: &self.erring,
            }
        }
    }

    /// The response: `allow` where some permit is satisfied and no forbid is. It takes the lists.
    pub(crate) fn into_response(self) -> Response<'p>
        ensures { result ≡ response_by self.entry }
    {
        if self.allows() {
            Response {
                decision: Decision::Allow,
                determining: self.permits,
                erring: self.erring,
            }
        } else {
            Response {
                decision: Decision::Deny,
                determining: self.forbids,
                erring: self.erring,
            }
        }
    }
}
