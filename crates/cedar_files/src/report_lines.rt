//! The lines of a report, each of them JSON.
ghost use Rattle.std.specs.Prelude.{◌≡◌, ◌++◌, [], ◌∷◌, OnOk};
ghost use Rattle.cedar_check.specs.FaultView.{fault_view};
ghost use Rattle.cedar_check_operators.specs.Numbers.{number_of};
ghost use Rattle.cedar_files.specs.ReportJson.{action_data, fault_data, totals_data, warning_data};
ghost use Rattle.cedar_files.specs.ReportText.{fault_line, totals_line, warning_line};
ghost use Rattle.cedar_files.specs.Private.Telling.{AppendsLines};
ghost use Rattle.cedar_files.specs.Private.Tokens.{data_tokens};

use crate::json_lines::JsonLines;
use cedar_check::Fault;
use cedar_value::{Text, Uid};
use json::Writer;
use std::alloc::{AllocError, Global};

/// 650: no request can satisfy the policy.
const IMPOSSIBLE: u64 = 650;

// `{"id":I,"type":T}`
fn write_action(writer: &mut Writer, action: &Uid) -> Result<(), AllocError>
    ensures tokens { OnOk result (writer.new.tokens ≡ writer.old.tokens ++ data_tokens (action_data action.now)) }
    ensures before { writer.new.before ≡ writer.old.before }
{
    writer.begin_object()?;
    writer.key("id")?;
    writer.string(action.id.as_str())?;
    writer.key("type")?;
    writer.string(action.ty.as_str())?;
    writer.end_object()?;
    Ok(())
}

// `{"action":A,"fault":N,"policy":P,"principal":T,"resource":T}`
fn write_fault(writer: &mut Writer, fault: &Fault) -> Result<(), AllocError>
    ensures tokens { OnOk result (writer.new.tokens
        ≡ writer.old.tokens ++ data_tokens (fault_data (fault_view fault.now) (number_of fault.now.reason))) }
    ensures before { writer.new.before ≡ writer.old.before }
{
    writer.begin_object()?;
    writer.key("action")?;
    write_action(writer, &fault.action)?;
    writer.key("fault")?;
    writer.u64(u64::from(fault.reason.number()))?;
    writer.key("policy")?;
    writer.string(fault.policy.as_str())?;
    writer.key("principal")?;
    writer.string(fault.principal.as_str())?;
    writer.key("resource")?;
    writer.string(fault.resource.as_str())?;
    writer.end_object()?;
    Ok(())
}

// `{"policy":P,"warning":650}`
fn write_warning(writer: &mut Writer, policy: &Text) -> Result<(), AllocError>
    ensures tokens { OnOk result (writer.new.tokens ≡ writer.old.tokens ++ data_tokens (warning_data policy.now)) }
    ensures before { writer.new.before ≡ writer.old.before }
{
    writer.begin_object()?;
    writer.key("policy")?;
    writer.string(policy.as_str())?;
    writer.key("warning")?;
    writer.u64(IMPOSSIBLE)?;
    writer.end_object()?;
    Ok(())
}

// `{"faults":F,"warnings":W}`
fn write_totals(writer: &mut Writer, faults: u64, warnings: u64) -> Result<(), AllocError>
    ensures tokens { OnOk result (writer.new.tokens ≡ writer.old.tokens ++ data_tokens (totals_data faults warnings)) }
    ensures before { writer.new.before ≡ writer.old.before }
{
    writer.begin_object()?;
    writer.key("faults")?;
    writer.u64(faults)?;
    writer.key("warnings")?;
    writer.u64(warnings)?;
    writer.end_object()?;
    Ok(())
}

/// Appends the line of a fault.
pub(crate) fn append_fault(fault: &Fault, lines: &mut JsonLines) -> Result<(), AllocError>
    ensures { OnOk result (AppendsLines (fault_line (fault_view fault.now) ∷ []) lines.old lines.new) }
{
    let mut writer = lines.begin();
    write_fault(&mut writer, fault)?;
    lines.end(writer)
}

/// Appends the line of a warning.
pub(crate) fn append_warning(policy: &Text, lines: &mut JsonLines) -> Result<(), AllocError>
    ensures { OnOk result (AppendsLines (warning_line policy.now ∷ []) lines.old lines.new) }
{
    let mut writer = lines.begin();
    write_warning(&mut writer, policy)?;
    lines.end(writer)
}

/// Appends the line of the totals.
pub(crate) fn append_totals(
    faults: u64,
    warnings: u64,
    lines: &mut JsonLines,
) -> Result<(), AllocError>
    ensures { OnOk result (AppendsLines (totals_line faults warnings ∷ []) lines.old lines.new) }
{
    let mut writer = lines.begin();
    write_totals(&mut writer, faults, warnings)?;
    lines.end(writer)
}
