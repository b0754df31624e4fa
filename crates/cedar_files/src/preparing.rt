//! Reads all files of a command line, until policies are ready to answer, and writes why they are not.
ghost use Rattle.std.specs.Prelude.{◌≡◌, ◌⊎◌, ◌-◌, ◌<◌, ◌^◌, [], None, IfErr, IfOk, OnOk};
ghost use Rattle.std.specs.Io.KnownBytes.{Keeps};
ghost use Rattle.cedar_check_spec.specs.Reports.{AreFaultsWith};
ghost use Rattle.cedar_auth_spec.specs.Codes.{HasLongCode};
ghost use Rattle.cedar_auth.specs.ValidationFaults.{HasFaultWith};
ghost use Rattle.base_lines.specs.AnswerText.{Writes};
ghost use Rattle.cedar_files.specs.Authorization.{HoldAll};
ghost use Rattle.cedar_files.specs.Ends.{EndsUnready};
ghost use Rattle.cedar_files.specs.ReportText.{IsReportText};
ghost use Rattle.cedar_files.specs.Standing.{BeginsRefusal, IsRefusalLine};
ghost use Rattle.cedar_files.specs.Validation.{BeginsReport};

use crate::ending::End;
use crate::files::{Files, Role};
use crate::reading_all::{TOO_LONG, read_all};
use crate::refusal::{FileRefusal, refuse};
use crate::unprepared::Unprepared;
use crate::validating::write_report;
use base_lines::Sink;
use cedar_auth::{NotValidated, Ready, ValidationFault};
use cedar_check_spec::Settings;
use std::alloc::Global;

// Reports why the policies are not accepted for the schema under these settings.
fn tell<K: Sink>(alloc: Global, refused: &NotValidated, sink: &mut K, settings: Settings) -> End
    requires sink_count { K.failed sink.old < 2 ^ 64 - 1 }
    requires refused { HasFaultWith settings refused.now.schema refused.now.policies.policies refused.now.fault }
    ensures faults { result ≡ End.Faults → ¬ AreFaultsWith settings refused.now.schema refused.now.policies.policies []
        × Writes (K.written sink.old) (K.written sink.new) (IsReportText settings refused.now.schema refused.now.policies.policies) }
    ensures refused { result ≡ End.Refused → HasLongCode refused.now.policies.policies
        × Writes (K.written sink.old) (K.written sink.new) (IsRefusalLine Role.Policies (record { number = 701; offset = None })) }
    ensures device { result ≡ End.Device → K.failed sink.old < K.failed sink.new }
    ensures stands { result ≡ End.Device
        → Writes (K.written sink.old) (K.written sink.new) (BeginsReport settings refused.now.schema refused.now.policies.policies)
        ⊎ (HasLongCode refused.now.policies.policies
        × Writes (K.written sink.old) (K.written sink.new) (BeginsRefusal Role.Policies (record { number = 701; offset = None }))) }
    ensures stands_whole { result ≡ End.Memory → Keeps (K.written sink.old) (K.written sink.new) }
    ensures others { (result ≡ End.Done → ⊥) × (result ≡ End.CommandLine → ⊥) }
{
    match &refused.fault {
        ValidationFault::OutOfMemory => End::Memory,
        ValidationFault::Faults(report) => write_report(alloc, &refused.policies, report, sink),
        ValidationFault::TooLong => {
            refuse(alloc, Role::Policies, FileRefusal::whole(TOO_LONG), sink)
        }
    }
}

/// Reads the schema, the policies, the links and the entities, in this order, and validates the policies under these settings, as
/// `authorize` does before it reads a request line.
///
/// # Errors
///
/// Where a file is refused or the policies have faults, it writes to the sink what `authorize` writes, and the error is how the
/// program ends.
pub fn prepare<F: Files, K: Sink>(
    alloc: Global,
    files: &F,
    sink: &mut K,
    settings: Settings,
) -> Result<Ready, End>
    requires { K.failed sink.old < 2 ^ 64 - 1 }
    ensures held { IfOk result (λ ready. HoldAll settings (F.holds files.now) ready) }
    ensures untouched { OnOk result (sink.new ≡ sink.old) }
    ensures unready { IfErr result (EndsUnready settings (F.holds files.now) (K.failed sink.old < K.failed sink.new) (K.written sink.old) (K.written sink.new)) }
    ensures unwritten { IfErr result (λ end. end ≡ End.CommandLine → sink.new ≡ sink.old) }
{
    match read_all(alloc, files, settings) {
        Ok(ready) => Ok(ready),
        Err(Unprepared::Refused(role, refusal)) => Err(refuse(alloc, role, refusal, sink)),
        Err(Unprepared::Faults(refused)) => Err(tell(alloc, &refused, sink, settings)),
        Err(Unprepared::Unnamed) => Err(End::CommandLine),
        Err(Unprepared::Device) => Err(End::Device),
        Err(Unprepared::Memory) => Err(End::Memory),
    }
}
