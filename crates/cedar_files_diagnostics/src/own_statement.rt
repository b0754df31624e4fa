//! The statement in which a policy is written.
use crate::diagnostic_draft::DiagnosticDraft;
use crate::excerpt::first_of;
use crate::fault_part::Checked;
use cedar_parser_places::{Extent, PartPlace, StatementPlaces};
use std::alloc::{AllocError, Global};

/// How many bytes of an id are shown at most.
pub(crate) const MOST_OF_ID: usize = 80;

/// The statement in which a policy is written: its own, or that of the template from which it is linked. The slots of a template are
/// where the uids of the link are, so a path leads to the same part.
#[derive(Clone, Copy)]
pub(crate) struct OwnStatement<'s> {
    statements: &'s StatementPlaces<'s>,
    // The id of the policy.
    policy: &'s str,
    // The id of the template, if the policy is linked.
    template: Option<&'s str>,
}

impl<'s> OwnStatement<'s> {
    /// The statement of the policy of an id.
    pub(crate) fn new(
        statements: &'s StatementPlaces<'s>,
        checked: Checked<'s>,
        policy: &'s str,
    ) -> OwnStatement<'s> {
        OwnStatement {
            statements,
            policy,
            template: checked.template_of(policy),
        }
    }

    // The id of the statement.
    fn id(self) -> &'s str {
        self.template.unwrap_or(self.policy)
    }

    /// The text of all statements.
    pub(crate) fn text(self) -> &'s str {
        self.statements.text()
    }

    /// What is written at a place of it.
    pub(crate) fn written(self, extent: Extent) -> &'s str {
        self.text().get(extent.start..extent.end).unwrap_or("")
    }

    /// What is written after a place of it.
    pub(crate) fn after(self, extent: Extent) -> &'s str {
        self.text().get(extent.end..).unwrap_or("")
    }

    /// Where it begins, in bytes from 0, if the text has it.
    pub(crate) fn start(self) -> Option<usize> {
        self.statements.start_of(self.id())
    }

    /// What the mark at its beginning says.
    pub(crate) fn says_of_beginning(self) -> &'static str {
        match self.template {
            Some(_) => "in the template that begins here",
            None => "in the policy that begins here",
        }
    }

    /// Where the part at a path of the policy's condition is written.
    pub(crate) fn part(
        self,
        alloc: Global,
        path: &[usize],
    ) -> Result<Option<PartPlace>, AllocError> {
        self.statements.part(alloc, self.id(), path)
    }

    /// Says from which template the policy is linked, if it is.
    pub(crate) fn note_link(self, diagnostic: &mut DiagnosticDraft) {
        if let Some(template) = self.template {
            let policy = first_of(self.policy, MOST_OF_ID);
            let template = first_of(template, MOST_OF_ID);
            diagnostic.note(&[
                "policy `",
                policy,
                "` is a link of template `",
                template,
                "`",
            ]);
        }
    }
}
