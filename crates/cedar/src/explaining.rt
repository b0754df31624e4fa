//! What is explained on standard error after the work has ended. Nothing is said when out of memory.
use crate::host_files::{HostFiles, ROLES, option_of};
use cedar_ast::PolicySet;
use cedar_cli::Words;
use cedar_files::{End, Role};
use cedar_files_diagnostics::{
    Explanation, Format, RefusedFile, count_unlinked, explain_file, explain_policy_faults,
    explain_report, not_again, unlinked_templates, unreadable,
};
use cedar_schema::Schema;
use std::alloc::{AllocError, Global};

/// The schema and the policies that a run has read, if they are kept.
pub type Read<'r> = Option<&'r (Schema, PolicySet)>;

/// Explains on standard error how a run over files ended.
#[derive(Clone, Copy)]
pub struct Explainer<'a> {
    /// The host.
    pub rt: &'a HostRuntime,
    /// The files of the run.
    pub files: &'a HostFiles<'a>,
    /// What the command line says.
    pub words: &'a Words<'a>,
    /// The form of what is explained.
    pub format: Format,
}

impl<'a> Explainer<'a> {
    // Appends why a file cannot be read, if so: its option, its name and what the system says.
    fn push_unreadable(
        self,
        alloc: Global,
        says: &mut String,
        role: Role,
    ) -> Result<(), AllocError> {
        if let (Some(name), Some(error)) = (
            self.files.name(role),
            self.files.why_unreadable(role),
        ) {
            let reason = error.to_string(alloc)?;
            let line = unreadable(alloc, self.format, option_of(role), name, reason.as_str())?;
            says.push_str(line.as_str())?;
        }
        Ok(())
    }

    // Which files cannot be read, and why.
    fn unreadable(self, alloc: Global) -> Result<String, AllocError> {
        let mut says = String::new(alloc);
        for role in ROLES {
            self.push_unreadable(alloc, &mut says, role)?;
        }
        Ok(says)
    }

    // What is explained; or that it is not, since the files cannot be read again.
    fn text_of(self, alloc: Global, explained: Option<Explanation>) -> Result<String, AllocError> {
        match explained {
            Some(explained) => explained.to_text(alloc, self.format),
            None => not_again(alloc, self.format),
        }
    }

    // Why a file is refused.
    fn refusal(self, alloc: Global, refused: RefusedFile) -> Result<String, AllocError> {
        let name = self.files.name(refused.role).unwrap_or("");
        let explained = explain_file(
            alloc,
            self.files,
            name,
            refused,
            self.words.settings.language,
        )?;
        self.text_of(alloc, explained)
    }

    // Which faults the policies have.
    fn faults(self, alloc: Global, read: Read<'_>) -> Result<String, AllocError> {
        let name = self.files.name(Role::Policies).unwrap_or("");
        let settings = self.words.settings;
        let explained = match read {
            Some(read) => explain_report(alloc, self.files, name, &read.0, &read.1, settings)?,
            None => explain_policy_faults(alloc, self.files, name, settings)?,
        };
        self.text_of(alloc, explained)
    }

    /// Why a run ended as it did: which file cannot be read, why a file is refused, or which faults the policies have; or nothing.
    /// `refused` is the file that standard output says is refused.
    pub fn text(
        self,
        end: End,
        refused: Option<RefusedFile>,
        read: Read<'_>,
    ) -> Result<String, AllocError> {
        let alloc = self.rt.alloc();
        match (end, refused) {
            (End::Device, _) => self.unreadable(alloc),
            (End::Refused, Some(refused)) => self.refusal(alloc, refused),
            (End::Refused, None) => not_again(alloc, self.format),
            (End::Faults, _) => self.faults(alloc, read),
            (End::Done | End::Memory | End::CommandLine, _) => Ok(String::new(alloc)),
        }
    }

    /// The warnings of a report without faults.
    pub fn warnings(self, read: Read<'_>) -> Result<String, AllocError> {
        self.faults(self.rt.alloc(), read)
    }

    /// How many templates of the policies that were read have no link; nothing if there is none.
    pub fn unlinked(self, read: Read<'_>) -> Result<String, AllocError> {
        let alloc = self.rt.alloc();
        match read {
            Some(read) => {
                let count = count_unlinked(alloc, self.files, &read.1)?;
                unlinked_templates(alloc, self.format, count)
            }
            None => Ok(String::new(alloc)),
        }
    }

    /// Prints what was explained, if there was memory for it.
    pub fn say(self, says: Result<String, AllocError>) {
        if let Ok(says) = says {
            // Where standard error is gone, the explanation is lost.
            let _ = self.rt.eprint(says.as_str());
        }
    }
}
