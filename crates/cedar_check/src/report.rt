//! Reports on a set of policies.
ghost use Rattle.std.specs.Prelude.{◌≡◌, [], IfOk, map};
ghost use Rattle.cedar_check_spec.specs.Reports.{AreFaultsWith, AreWarningsWith};
ghost use Rattle.cedar_check_spec.specs.Settings.{default_settings};
ghost use Rattle.cedar_check.specs.FaultView.{fault_view};

use crate::fault::Fault;
use crate::validator::Validator;
use cedar_ast::PolicySet;
use cedar_check_spec::Settings;
use cedar_schema::Schema;
use cedar_value::Text;
use std::alloc::{AllocError, Global};

/// What strict validation finds in a set of policies (Cedar documentation, policy validation).
#[derive(Drop)]
pub struct Report {
    /// Where policies are not accepted: in the order of the policies, and for one policy in the order of the environments.
    pub faults: Vec<Fault>,
    /// 650: the ids of the policies that no request can satisfy, in the order of the policies.
    pub warnings: Vec<Text>,
}

impl Report {
    /// A report on no policies. Takes no memory.
    pub fn new(alloc: Global) -> Self
        ensures faults { result.faults.items ≡ [] }
        ensures warnings { result.warnings.items ≡ [] }
    {
        Report {
            faults: Vec::new(alloc),
            warnings: Vec::new(alloc),
        }
    }
}

/// The faults of the policies for a schema under these settings, and the policies that no request can satisfy
/// (Cedar documentation, policy validation). Templates are not checked; links are, as policies of the set.
///
/// # Errors
///
/// Fails only when out of memory.
pub fn check_with(
    alloc: Global,
    schema: &Schema,
    policies: &PolicySet,
    settings: Settings,
) -> Result<Report, AllocError>
    ensures faults { IfOk result (λ report. AreFaultsWith settings schema.now policies.now.policies (map fault_view report.faults.items)) }
    ensures warnings { IfOk result (λ report. AreWarningsWith settings schema.now policies.now.policies report.warnings.items) }
{
    let validator = Validator::new(alloc, schema)?;
    let mut report = Report::new(alloc);
    for position in 0..policies.count() {
        let Some(policy) = policies.policy(position) else {
            unreachable!()
        };
        let condition = policy.condition(alloc)?;
        validator.check(alloc, settings, policy, &condition, &mut report)?;
    }
    Ok(report)
}

/// The faults of the policies for a schema with strict validation as it is documented, and the policies that no
/// request can satisfy (Cedar documentation, policy validation): `check_with` with no setting on. Templates are
/// not checked; links are, as policies of the set.
///
/// # Errors
///
/// Fails only when out of memory.
pub fn check(alloc: Global, schema: &Schema, policies: &PolicySet) -> Result<Report, AllocError>
    ensures faults { IfOk result (λ report. AreFaultsWith default_settings schema.now policies.now.policies (map fault_view report.faults.items)) }
    ensures warnings { IfOk result (λ report. AreWarningsWith default_settings schema.now policies.now.policies report.warnings.items) }
{
    check_with(alloc, schema, policies, Settings::default())
}
