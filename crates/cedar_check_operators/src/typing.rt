//! Answers of the checker.
ghost use Rattle.std.specs.Prelude.{◌≡◌};
ghost use Rattle.cedar_check_spec.specs.Rows.{as_type};
ghost use Rattle.cedar_check_operators.specs.View.{tree_of, typing_view};

use crate::capability::Capability;
use crate::lent_type::LentType;
use crate::type_fault::TypeFault;
use std::alloc::Global;

/// A type, and what is gained where the expression is true.
#[derive(Drop)]
pub struct Typed<'a> {
    /// The type.
    pub ty: LentType<'a>,
    /// What is gained.
    pub gained: Vec<Capability<'a>>,
}

/// Whether an expression has a type.
#[derive(Drop)]
pub enum Typing<'a> {
    /// It has this one.
    Typed(Typed<'a>),
    /// It has none.
    Refused(TypeFault),
}

impl<'a> Typing<'a> {
    /// A type, which gains nothing. Takes no memory.
    pub fn plain(alloc: Global, ty: LentType<'a>) -> Self
        ensures { typing_view result ≡ as_type (tree_of ty.entry) }
    {
        Typing::Typed(Typed {
            ty,
            gained: Vec::new(alloc),
        })
    }
}
