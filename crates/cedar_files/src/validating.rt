//! The subcommand `validate`.
ghost use Rattle.std.specs.Prelude.{◌≡◌, ◌≢◌, ◌⊎◌, ◌-◌, ◌<◌, ◌^◌, List, [], length, IfErr, IfOk, OnOk};
ghost use Rattle.std.specs.Io.KnownBytes.{Keeps};
ghost use Rattle.cedar_schema_spec.specs.SchemaTree.{SchemaTree};
ghost use Rattle.base_lines.specs.AnswerText.{Writes};
ghost use Rattle.cedar_check_spec.specs.Reports.{FaultTree, AreFaultsWith};
ghost use Rattle.cedar_files.specs.Ends.{Validates};
ghost use Rattle.cedar_files.specs.ReportText.{IsReportText, Reports};
ghost use Rattle.cedar_files.specs.Validation.{BeginsReport};
ghost use Rattle.cedar_files.specs.Private.Reporting.{BreaksOff, IsSentTo};

use crate::ending::End;
use crate::files::{Files, Role};
use crate::json_lines::JsonLines;
use crate::reading_linked::read_linked;
use crate::refusal::{FileRefusal, refuse};
use crate::report::report_text;
use crate::report_lines::append_totals;
use crate::report_place::ReportPlace;
use crate::reporting::Reporting;
use crate::unprepared::Unprepared;
use base_lines::{Sink, flush};
use cedar_ast::PolicySet;
use cedar_check::Report;
use cedar_check_spec::Settings;
use cedar_schema::Schema;
use std::alloc::Global;

/// Lines are sent to the sink once their text has so many bytes.
const SEND_BYTES: usize = 65_536;

/// Writes a report on the policies. It ends with:
///
/// - `Done`: the report has no faults.
/// - `Faults`: the report has faults.
/// - `Device`: the sink failed during the call, which may leave a part of the report.
/// - `Memory`: memory ran out, which leaves nothing.
pub fn write_report<K: Sink>(
    alloc: Global,
    policies: &PolicySet,
    report: &Report,
    sink: &mut K,
) -> End
    requires { K.failed sink.old < 2 ^ 64 - 1 }
    ensures done { result ≡ End.Done → report.now.faults.items ≡ [] }
    ensures faults { result ≡ End.Faults → report.now.faults.items ≢ [] }
    ensures whole { (result ≡ End.Done) ⊎ (result ≡ End.Faults) → (settings : Settings) (s : SchemaTree) → Reports settings s policies.now.policies report.now
        → Writes (K.written sink.old) (K.written sink.new) (IsReportText settings s policies.now.policies) }
    ensures device { result ≡ End.Device → K.failed sink.old < K.failed sink.new }
    ensures stands { result ≡ End.Device → (settings : Settings) (s : SchemaTree) → Reports settings s policies.now.policies report.now
        → Writes (K.written sink.old) (K.written sink.new) (BeginsReport settings s policies.now.policies) }
    ensures stands_whole { result ≡ End.Memory → Keeps (K.written sink.old) (K.written sink.new) }
    ensures others { (result ≡ End.Refused → ⊥) × (result ≡ End.CommandLine → ⊥) }
{
    let Ok(mut text) = report_text(alloc, policies, report) else {
        return End::Memory;
    };
    match flush(&mut text, sink) {
        Ok(()) if report.faults.is_empty() => End::Done,
        Ok(()) => End::Faults,
        Err(_) => End::Device,
    }
}

/// Reports on the policies, and on those that the links give, against the schema and under these settings. It ends with:
///
/// The lines are written as they are found: memory is taken for the files, for what is found in one policy and for 65,536 bytes of
/// lines and one policy's more, and not for the whole report.
///
/// - `Done`: the policies have no fault. The report was written, a line for each warning and one with the numbers of faults and
///   warnings.
/// - `Faults`: the policies have faults. The report was written, with a line for each fault too.
/// - `Refused`: a file is refused, the schema before the policies and these before the links. One line such as
///   `{"file":"schema","refused":302}` or `{"file":"policies","offset":43,"refused":104}` gives the file, the number and, for a
///   policy text, the place of the fault.
/// - `CommandLine`: the command line does not name a schema and policies. Nothing is written.
/// - `Device`: a file can't be read, or the sink failed, which may leave a part of a line.
/// - `Memory`: memory ran out, which leaves nothing, or a beginning of the report.
pub fn validate<F: Files, K: Sink>(
    alloc: Global,
    files: &F,
    sink: &mut K,
    settings: Settings,
) -> End
    requires { K.failed sink.old < 2 ^ 64 - 1 }
    ensures ends { Validates settings (F.holds files.now) (K.failed sink.old < K.failed sink.new) (K.written sink.old) (K.written sink.new) result }
    ensures untouched { result ≡ End.CommandLine → sink.new ≡ sink.old }
{
    validate_keeping(alloc, files, sink, settings, &mut None)
}

// Writes the lines of a report from the beginning, and sends them to the sink as they are found. The last ones wait in the text.
fn send_lines<K: Sink>(
    alloc: Global,
    reporting: &Reporting<'_>,
    text: &mut JsonLines,
    sink: &mut K,
) -> Result<ReportPlace, End>
    requires count { K.failed sink.old < 2 ^ 64 - 1 }
    requires empty { text.old ≡ [] }
    ensures sent { IfOk result (λ place. (place.policy ≡ length reporting.now.policies.now.policies)
        × IsSentTo reporting.now.settings reporting.now.validator reporting.now.policies.now.policies place (K.written sink.old) (K.written sink.new) text.new) }
    ensures count { OnOk result (K.failed sink.new ≡ K.failed sink.old) }
    ensures broken { IfErr result (BreaksOff reporting.now.settings reporting.now.validator reporting.now.policies.now.policies
        (K.failed sink.old < K.failed sink.new) (K.written sink.old) (K.written sink.new)) }
{
    let mut place = ReportPlace::beginning(None);
    'lines: while reporting.append_next(alloc, &mut place, text)? {
        if text.len() >= SEND_BYTES {
            text.send(sink)?;
        }
    }
    Ok(place)
}

// Writes a report to the sink, and gives the place at its end.
fn send_report<K: Sink>(
    alloc: Global,
    schema: &Schema,
    policies: &PolicySet,
    settings: Settings,
    sink: &mut K,
) -> Result<ReportPlace, End>
    requires { K.failed sink.old < 2 ^ 64 - 1 }
    ensures faults { IfOk result (λ place. (found : List FaultTree) × AreFaultsWith settings schema.now policies.now.policies found × (place.faults ≡ length found)) }
    ensures whole { OnOk result (Writes (K.written sink.old) (K.written sink.new) (IsReportText settings schema.now policies.now.policies)) }
    ensures broken { IfErr result (BreaksOff settings schema.now policies.now.policies (K.failed sink.old < K.failed sink.new) (K.written sink.old) (K.written sink.new)) }
{
    let reporting = Reporting::new(alloc, schema, policies, settings)?;
    let mut text = JsonLines::new(alloc);
    let place = send_lines(alloc, &reporting, &mut text, sink)?;
    append_totals(place.faults, place.warnings, &mut text)?;
    text.send(sink)?;
    Ok(place)
}

// Writes a report to the sink, and says how it ends.
fn report_to<K: Sink>(
    alloc: Global,
    schema: &Schema,
    policies: &PolicySet,
    settings: Settings,
    sink: &mut K,
) -> End
    requires { K.failed sink.old < 2 ^ 64 - 1 }
    ensures done { result ≡ End.Done → AreFaultsWith settings schema.now policies.now.policies [] }
    ensures faults { result ≡ End.Faults → ¬ AreFaultsWith settings schema.now policies.now.policies [] }
    ensures whole { (result ≡ End.Done) ⊎ (result ≡ End.Faults) → Writes (K.written sink.old) (K.written sink.new) (IsReportText settings schema.now policies.now.policies) }
    ensures device { result ≡ End.Device → K.failed sink.old < K.failed sink.new }
    ensures begun { (result ≡ End.Device) ⊎ (result ≡ End.Memory) → Writes (K.written sink.old) (K.written sink.new) (BeginsReport settings schema.now policies.now.policies) }
    ensures others { (result ≡ End.Refused → ⊥) × (result ≡ End.CommandLine → ⊥) }
{
    match send_report(alloc, schema, policies, settings, sink) {
        Ok(place) if place.faults == 0 => End::Done,
        Ok(_) => End::Faults,
        Err(end) => end,
    }
}

/// Like [`validate`], and puts the schema and the policies on which it reports into `kept`, so that they can be explained without reading
/// them again.
pub fn validate_keeping<F: Files, K: Sink>(
    alloc: Global,
    files: &F,
    sink: &mut K,
    settings: Settings,
    kept: &mut Option<(Schema, PolicySet)>,
) -> End
    requires { K.failed sink.old < 2 ^ 64 - 1 }
    ensures ends { Validates settings (F.holds files.now) (K.failed sink.old < K.failed sink.new) (K.written sink.old) (K.written sink.new) result }
    ensures untouched { result ≡ End.CommandLine → sink.new ≡ sink.old }
{
    match read_linked(alloc, files, settings.language) {
        Ok((schema, policies)) => {
            let end = report_to(alloc, &schema, &policies, settings, sink);
            *kept = Some((schema, policies));
            end
        }
        Err(Unprepared::Refused(role, refusal)) => refuse(alloc, role, refusal, sink),
        Err(Unprepared::Faults(_)) => unreachable!(),
        Err(Unprepared::Unnamed) => End::CommandLine,
        Err(Unprepared::Device) => End::Device,
        Err(Unprepared::Memory) => End::Memory,
    }
}
