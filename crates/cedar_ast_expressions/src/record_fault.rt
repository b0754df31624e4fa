//! Why a record expression is not made.
ghost use Rattle.std.specs.Prelude.{◌≡◌};
ghost use Rattle.cedar_ast_expressions.specs.RecordFault.{number_of, refused};

use crate::expression::Expr;
use cedar_value::SharedText;
use std::fmt;
use thiserror::Error;

/// Why a record expression is not made. The pairs are handed back.
#[derive(Drop, Error)]
pub enum RecordFault {
    /// 1: out of memory.
    #[error("out of memory")]
    OutOfMemory(Vec<(SharedText, Expr)>),
    /// 203: a key is repeated.
    #[error("a key stands twice")]
    DuplicateKey(Vec<(SharedText, Expr)>),
}

impl RecordFault {
    /// The refusal's number.
    pub fn number(&self) -> u16
        ensures { result ≡ number_of self.now }
    {
        match self {
            RecordFault::OutOfMemory(_) => 1,
            RecordFault::DuplicateKey(_) => 203,
        }
    }

    /// The pairs that the call was given.
    pub fn into_pairs(self) -> Vec<(SharedText, Expr)>
        ensures { result.items ≡ refused self }
    {
        match self {
            RecordFault::OutOfMemory(pairs) => pairs,
            RecordFault::DuplicateKey(pairs) => pairs,
        }
    }
}

impl fmt::Debug for RecordFault {
    fn fmt<W: fmt::Write>(&self, f: &mut fmt::Formatter<W>) -> fmt::Result {
        match self {
            RecordFault::OutOfMemory(_) => write!(f, "OutOfMemory"),
            RecordFault::DuplicateKey(_) => write!(f, "DuplicateKey"),
        }
    }
}
