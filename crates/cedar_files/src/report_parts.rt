//! A part of a report, for hosts that make a report in parts.
ghost use Rattle.std.specs.Prelude.{◌≡◌, ◌≤◌, ◌<◌, ◌⊎◌, [], length, MatchOption, IfErr, IfOk, OnOk};
ghost use Rattle.cedar_ast.specs.PolicySetTree.{PolicySetTree};
ghost use Rattle.cedar_schema_spec.specs.SchemaTree.{SchemaTree};
ghost use Rattle.cedar_files.specs.ReportPart.{IsMisplaced, IsNextPart, IsReportPart};
ghost use Rattle.cedar_files.specs.Unprepared.{IsUnreported};
ghost use Rattle.cedar_files.specs.Validation.{Hold};

use crate::files::Files;
use crate::json_lines::JsonLines;
use crate::reading_linked::read_linked;
use crate::report_lines::append_totals;
use crate::report_place::ReportPlace;
use crate::reporting::Reporting;
use crate::unprepared::Unprepared;
use cedar_check_spec::Settings;
use std::alloc::{AllocError, Global};

/// A part ends after the policy at which its text has so many bytes.
const PART_BYTES: usize = 65_536;

/// A part is of so many policies at most.
const PART_POLICIES: usize = 1_000;

/// A part of a report on policies.
#[derive(Drop)]
pub struct ReportPart {
    /// A line for each fault and each warning of the policies of this part, as many as may still be written. If the report has ended,
    /// the last line is that of the totals.
    pub text: Vec<u8>,
    /// The place after the part.
    pub place: ReportPlace,
    /// Whether the report has ended.
    pub has_ended: bool,
}

// Appends the lines of the policies of a part, and moves the place on.
fn append_part(
    alloc: Global,
    reporting: &Reporting<'_>,
    place: &mut ReportPlace,
    text: &mut JsonLines,
) -> Result<(), AllocError>
    requires empty { text.old ≡ [] }
    requires within { place.old.policy ≤ length reporting.now.policies.now.policies }
    ensures part { OnOk result (IsReportPart reporting.now.settings reporting.now.validator reporting.now.policies.now.policies place.old place.new text.new) }
    ensures moved { OnOk result ((place.old.policy < place.new.policy) ⊎ (place.new.policy ≡ length reporting.now.policies.now.policies)) }
{
    'part: for _ in 0..PART_POLICIES {
        if !reporting.append_next(alloc, place, text)? {
            return Ok(());
        }
        if text.len() >= PART_BYTES {
            return Ok(());
        }
    }
    Ok(())
}

// The next part after a place, or none where the report has no such place or its counts have no room for those of the part.
fn next_part(
    alloc: Global,
    reporting: &Reporting<'_>,
    from: ReportPlace,
) -> Result<Option<ReportPart>, AllocError>
    ensures { IfOk result (λ found. MatchOption found
        (IsMisplaced reporting.now.settings reporting.now.validator reporting.now.policies.now.policies from)
        (IsNextPart reporting.now.settings reporting.now.validator reporting.now.policies.now.policies from)) }
{
    let count = reporting.policies.count();
    if from.policy > count {
        return Ok(None);
    }
    let mut found = from.uncounted();
    let mut text = JsonLines::new(alloc);
    append_part(alloc, reporting, &mut found, &mut text)?;
    let Some(place) = found.counted_after(from) else {
        return Ok(None);
    };
    let has_ended = place.policy == count;
    if has_ended {
        append_totals(place.faults, place.warnings, &mut text)?;
    }
    let text = text.into_text();
    Ok(Some(ReportPart {
        text,
        place,
        has_ended,
    }))
}

/// The next part of the report on the policies, and on those that the links give, against the schema and under these settings: that
/// of the policies from the place on, up to the one at which the text has 65,536 bytes or up to 1,000 of them. `None` where the place
/// is after the last policy, or its counts have no room for those of the part.
///
/// The texts of the parts, one after another from [`ReportPlace::beginning`] on, are the text that [`validate`](crate::validate)
/// writes if no limit is set. Each call reads the files again, and takes memory for them, for the part and for the lines of one policy.
///
/// # Errors
///
/// `Refused` at the first file that is refused, the schema before the policies and these before the links. `Unnamed` where no schema
/// or no policies are named, `Device` where a file can't be read, and `Memory` when out of memory. Never `Faults`.
pub fn report_part<F: Files>(
    alloc: Global,
    files: &F,
    settings: Settings,
    place: ReportPlace,
) -> Result<Option<ReportPart>, Unprepared>
    ensures part { IfOk result (λ found. (s : SchemaTree) × (set : PolicySetTree) × Hold settings.language (F.holds files.now) s set
        × MatchOption found (IsMisplaced settings s set.policies place) (IsNextPart settings s set.policies place)) }
    ensures unprepared { IfErr result (IsUnreported settings.language (F.holds files.now)) }
{
    let (schema, policies) = read_linked(alloc, files, settings.language)?;
    let reporting = Reporting::new(alloc, &schema, &policies, settings)?;
    let part = next_part(alloc, &reporting, place)?;
    Ok(part)
}
