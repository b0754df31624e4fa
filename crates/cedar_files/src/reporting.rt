//! Reports on policies one after another.
ghost use Rattle.std.specs.Prelude.{◌≡◌, ◌≤◌, ◌∷◌, ◌+◌, [], true, false, length, IfOk};
ghost use Rattle.cedar_files.specs.ReportText.{Reports};
ghost use Rattle.cedar_files.specs.Private.Reporting.{AppendsPart};

use crate::json_lines::JsonLines;
use crate::report_place::ReportPlace;
use cedar_ast::{Policy, PolicySet};
use cedar_check::{Report, Validator};
use cedar_check_spec::Settings;
use cedar_schema::Schema;
use std::alloc::{AllocError, Global};

/// What a report is on. Each policy is validated only once its lines are wanted, so there is never more than what is found in one.
#[derive(Drop)]
pub(crate) struct Reporting<'a> {
    pub(crate) validator: Validator<'a>,
    pub(crate) policies: &'a PolicySet,
    pub(crate) settings: Settings,
}

impl<'a> Reporting<'a> {
    /// A report on policies against a schema, under these settings.
    pub(crate) fn new(
        alloc: Global,
        schema: &'a Schema,
        policies: &'a PolicySet,
        settings: Settings,
    ) -> Result<Self, AllocError>
        ensures { IfOk result (λ r. (r.validator ≡ schema.now) × (r.policies.now ≡ policies.now) × (r.settings ≡ settings)) }
    {
        let validator = Validator::new(alloc, schema)?;
        Ok(Reporting {
            validator,
            policies,
            settings,
        })
    }

    // What strict validation finds in a policy.
    fn found(&self, alloc: Global, policy: &Policy) -> Result<Report, AllocError>
        ensures { IfOk result (λ report. Reports self.now.settings self.now.validator (policy.now ∷ []) report) }
    {
        let mut report = Report::new(alloc);
        let condition = policy.condition(alloc)?;
        let validator = &self.validator;
        let checked = validator.check(alloc, self.settings, policy, &condition, &mut report);
        drop(condition);
        match checked {
            Ok(()) => Ok(report),
            Err(error) => Err(error),
        }
    }

    /// Appends the lines of the policy at the place, as many as may still be written, and moves the place on. Returns whether there is
    /// such a policy.
    pub(crate) fn append_next(
        &self,
        alloc: Global,
        place: &mut ReportPlace,
        text: &mut JsonLines,
    ) -> Result<bool, AllocError>
        ensures appended { IfOk result (λ more. more ≡ true → (place.new.policy ≡ place.old.policy + 1)
            × AppendsPart self.now.settings self.now.validator self.now.policies.now.policies place.old place.new text.old text.new) }
        ensures ended { IfOk result (λ more. more ≡ false → (length self.now.policies.now.policies ≤ place.old.policy) × (place.new ≡ place.old) × (text.new ≡ text.old)) }
    {
        if place.policy >= self.policies.count() {
            return Ok(false);
        }
        let Some(policy) = self.policies.policy(place.policy) else {
            unreachable!()
        };
        let report = self.found(alloc, policy)?;
        place.append_policy(&report.faults, &report.warnings, text)?;
        Ok(true)
    }
}
