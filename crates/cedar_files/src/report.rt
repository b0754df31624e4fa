//! The text of a report that was made whole.
ghost use Rattle.std.specs.Prelude.{◌≡◌, [], ◌∷◌, cond, drop, map, IfOk};
ghost use Rattle.cedar_schema_spec.specs.SchemaTree.{SchemaTree};
ghost use Rattle.cedar_check_spec.specs.declared.settings.Settings.{Settings};
ghost use Rattle.cedar_check.specs.FaultView.{fault_view};
ghost use Rattle.cedar_files.specs.ReportText.{IsReportText, Reports};
ghost use Rattle.cedar_files.specs.Private.Telling.{begins_with, faults_after, faults_of_first};

use crate::json_lines::JsonLines;
use crate::report_lines::append_totals;
use crate::report_place::ReportPlace;
use cedar_ast::PolicySet;
use cedar_check::{Fault, Report};
use cedar_value::Text;
use std::alloc::{AllocError, Global};

// The first faults, as many as are this policy's, and the others.
fn cut_faults<'r>(policy: &Text, faults: &'r [Fault]) -> (&'r [Fault], &'r [Fault])
    ensures own { map fault_view result.0.now ≡ faults_of_first policy.now (map fault_view faults.now) }
    ensures others { map fault_view result.1.now ≡ faults_after policy.now (map fault_view faults.now) }
{
    for (count, fault) in faults.iter().enumerate() {
        if fault.policy != *policy {
            return faults.split_at(count);
        }
    }
    faults.split_at(faults.len())
}

// The first warning, where it is this policy's, and the others.
fn cut_warnings<'r>(policy: &Text, warnings: &'r [Text]) -> (&'r [Text], &'r [Text])
    ensures own { result.0.now ≡ cond (begins_with policy.now warnings.now) (policy.now ∷ []) [] }
    ensures others { result.1.now ≡ cond (begins_with policy.now warnings.now) (drop 1 warnings.now) warnings.now }
{
    let Some(first) = warnings.first() else {
        return warnings.split_at(0);
    };
    if *first != *policy {
        return warnings.split_at(0);
    }
    warnings.split_at(1)
}

/// The text of a report on policies: for each policy, in their order, a line for each of its faults, or for its warning, and
/// then a line with the numbers of faults and of warnings.
///
/// # Errors
///
/// Fails only when out of memory.
pub fn report_text(
    alloc: Global,
    policies: &PolicySet,
    report: &Report,
) -> Result<Vec<u8>, AllocError>
    ensures { IfOk result (λ text. (settings : Settings) (s : SchemaTree) → Reports settings s policies.now.policies report.now
        → IsReportText settings s policies.now.policies text.items) }
{
    let mut place = ReportPlace::beginning(None);
    let mut text = JsonLines::new(alloc);
    let mut faults = report.faults.as_slice();
    let mut warnings = report.warnings.as_slice();
    for position in 0..policies.count() {
        let Some(policy) = policies.policy(position) else {
            unreachable!()
        };
        let id = policy.id();
        let (own_faults, other_faults) = cut_faults(id, faults);
        let (own_warnings, other_warnings) = cut_warnings(id, warnings);
        place.append_policy(own_faults, own_warnings, &mut text)?;
        faults = other_faults;
        warnings = other_warnings;
    }
    append_totals(place.faults, place.warnings, &mut text)?;
    Ok(text.into_text())
}
