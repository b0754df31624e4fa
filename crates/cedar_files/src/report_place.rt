//! How far a report has been written.
ghost use Rattle.std.specs.Prelude.{◌≡◌, ◌≤◌, ◌<◌, ◌⊎◌, ◌+◌, ◌-◌, ◌^◌, [], ◌∷◌, ◌++◌, cond, length, map, MatchOption, IfOk, OnOk};
ghost use Rattle.cedar_check.specs.FaultView.{fault_view};
ghost use Rattle.cedar_files.specs.ReportPart.{beginning, limit_after, within_limit};
ghost use Rattle.cedar_files.specs.ReportText.{ReportLine, fault_line, warning_line};
ghost use Rattle.cedar_files.specs.Private.Reporting.{AppendsWithin};

use crate::json_lines::JsonLines;
use crate::report_lines::{append_fault, append_warning};
use cedar_check::Fault;
use cedar_value::Text;
use std::alloc::AllocError;

/// How far a report on policies has been written.
#[derive(Clone, Copy, Debug, PartialEq, Eq)]
pub struct ReportPlace {
    /// How many of the policies have been reported on.
    pub policy: usize,
    /// How many faults these have.
    pub faults: u64,
    /// How many warnings these have.
    pub warnings: u64,
    /// How many lines of faults and warnings may still be written, or `None` without a limit. After them only the counts go on.
    pub lines: Option<u64>,
}

// One more than a count. A count that does not fit 64 bits has no room.
fn one_more(count: u64) -> Result<u64, AllocError>
    ensures { IfOk result (λ more. more ≡ count + 1) }
{
    match count.checked_add(1) {
        Some(more) => Ok(more),
        None => Err(AllocError),
    }
}

impl ReportPlace {
    /// The place where a report begins, with this limit of lines.
    pub fn beginning(lines: Option<u64>) -> Self
        ensures { result ≡ beginning lines }
    {
        ReportPlace {
            policy: 0,
            faults: 0,
            warnings: 0,
            lines,
        }
    }

    /// The same place, before anything was counted.
    pub(crate) fn uncounted(self) -> Self
        ensures { result ≡ record self { faults = 0; warnings = 0 } }
    {
        ReportPlace {
            faults: 0,
            warnings: 0,
            ..self
        }
    }

    /// The same place, where the counts of an earlier one are added, if they fit 64 bits.
    pub(crate) fn counted_after(self, before: ReportPlace) -> Option<Self>
        ensures { MatchOption result
            ((2 ^ 64 ≤ before.faults + self.faults) ⊎ (2 ^ 64 ≤ before.warnings + self.warnings))
            (λ place. place ≡ record self { faults = before.faults + self.faults; warnings = before.warnings + self.warnings }) }
    {
        let faults = before.faults.checked_add(self.faults)?;
        let warnings = before.warnings.checked_add(self.warnings)?;
        Some(ReportPlace {
            faults,
            warnings,
            ..self
        })
    }

    // Counts one more line, and returns whether it may be written.
    fn take_line(&mut self) -> bool
        ensures taken { (line : ReportLine) → within_limit self.old.lines (line ∷ []) ≡ cond result (line ∷ []) [] }
        ensures counted { self.new ≡ record self.old { lines = limit_after self.old.lines 1 } }
    {
        let Some(left) = self.lines else {
            return true;
        };
        self.lines = Some(left.saturating_sub(1));
        left > 0
    }

    // Appends the line of one more fault, if it may be written, and counts it.
    fn append_fault(&mut self, fault: &Fault, text: &mut JsonLines) -> Result<(), AllocError>
        ensures told { OnOk result (AppendsWithin self.old.lines (fault_line (fault_view fault.now) ∷ []) text.old text.new) }
        ensures counted { OnOk result (self.new ≡ record self.old { faults = self.old.faults + 1; lines = limit_after self.old.lines 1 }) }
    {
        if self.take_line() {
            append_fault(fault, text)?;
        }
        self.faults = one_more(self.faults)?;
        Ok(())
    }

    // Appends the line of one more warning, if it may be written, and counts it.
    fn append_warning(&mut self, policy: &Text, text: &mut JsonLines) -> Result<(), AllocError>
        ensures told { OnOk result (AppendsWithin self.old.lines (warning_line policy.now ∷ []) text.old text.new) }
        ensures counted { OnOk result (self.new ≡ record self.old { warnings = self.old.warnings + 1; lines = limit_after self.old.lines 1 }) }
    {
        if self.take_line() {
            append_warning(policy, text)?;
        }
        self.warnings = one_more(self.warnings)?;
        Ok(())
    }

    // Appends the lines of faults, as many as may still be written, and counts all of them.
    fn append_faults(&mut self, faults: &[Fault], text: &mut JsonLines) -> Result<(), AllocError>
        ensures told { OnOk result (AppendsWithin self.old.lines (map fault_line (map fault_view faults.now)) text.old text.new) }
        ensures counted { OnOk result (self.new ≡ record self.old { faults = self.old.faults + length faults.now; lines = limit_after self.old.lines (length faults.now) }) }
    {
        for fault in faults {
            self.append_fault(fault, text)?;
        }
        Ok(())
    }

    // Appends the lines of warnings, as many as may still be written, and counts all of them.
    fn append_warnings(&mut self, warnings: &[Text], text: &mut JsonLines) -> Result<(), AllocError>
        ensures told { OnOk result (AppendsWithin self.old.lines (map warning_line warnings.now) text.old text.new) }
        ensures counted { OnOk result (self.new ≡ record self.old { warnings = self.old.warnings + length warnings.now; lines = limit_after self.old.lines (length warnings.now) }) }
    {
        for policy in warnings {
            self.append_warning(policy, text)?;
        }
        Ok(())
    }

    /// Appends the lines of what was found in the policy at the place, as many as may still be written, and moves the place on.
    pub(crate) fn append_policy(
        &mut self,
        faults: &[Fault],
        warnings: &[Text],
        text: &mut JsonLines,
    ) -> Result<(), AllocError>
        requires { self.old.policy + 1 < 2 ^ 64 }
        ensures told { OnOk result (AppendsWithin self.old.lines (map fault_line (map fault_view faults.now) ++ map warning_line warnings.now) text.old text.new) }
        ensures counted { OnOk result (self.new ≡ record {
          policy = self.old.policy + 1;
          faults = self.old.faults + length faults.now;
          warnings = self.old.warnings + length warnings.now;
          lines = limit_after self.old.lines (length faults.now + length warnings.now);
        }) }
    {
        self.append_faults(faults, text)?;
        self.append_warnings(warnings, text)?;
        self.policy += 1;
        Ok(())
    }
}
