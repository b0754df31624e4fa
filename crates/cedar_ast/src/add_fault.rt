//! Why a policy or a template is not added.
ghost use Rattle.std.specs.Prelude.{◌≡◌};
ghost use Rattle.cedar_ast.specs.AddFault.{number_of, refused};

use crate::statement::Statement;
use thiserror::Error;

/// Why a policy or a template is not added to a set. It is handed back.
#[derive(Debug, Drop, Error)]
pub enum AddFault {
    /// 1: out of memory.
    #[error("out of memory")]
    OutOfMemory(Statement),
    /// 204: a policy or a template of the set has this id already.
    #[error("another policy or template has this id")]
    DuplicateId(Statement),
}

impl AddFault {
    /// The refusal's number.
    pub fn number(&self) -> u16
        ensures { result ≡ number_of self.now }
    {
        match self {
            AddFault::OutOfMemory(_) => 1,
            AddFault::DuplicateId(_) => 204,
        }
    }

    /// What was not added.
    pub fn into_statement(self) -> Statement
        ensures { result ≡ refused self }
    {
        match self {
            AddFault::OutOfMemory(statement) => statement,
            AddFault::DuplicateId(statement) => statement,
        }
    }
}
