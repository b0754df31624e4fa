//! Why a template is not linked.
ghost use Rattle.std.specs.Prelude.{◌≡◌};
ghost use Rattle.cedar_ast.specs.AddFault.{number_of as add_fault_number};
ghost use Rattle.cedar_ast.specs.LinkFault.{number_of};

use crate::add_fault::AddFault;
use std::alloc::AllocError;
use thiserror::Error;

/// Why a template of a set is not linked.
#[derive(Clone, Copy, Debug, PartialEq, Eq, Error)]
pub enum LinkFault {
    /// 1: out of memory.
    #[error("out of memory")]
    OutOfMemory,
    /// 204: a policy or a template of the set has the link's id already.
    #[error("another policy or template has this id")]
    DuplicateId,
    /// 210: the set has no template of the id that is to be linked.
    #[error("no template has this id")]
    NoSuchTemplate,
    /// 211: nothing is given for a slot of the template.
    #[error("nothing is given for a slot of the template")]
    MissingSlot,
    /// 212: a uid is given for a slot that the template does not have.
    #[error("a uid is given for a slot that the template does not have")]
    ExtraSlot,
}

impl LinkFault {
    /// The refusal's number.
    pub fn number(self) -> u16
        ensures { result ≡ number_of self }
    {
        match self {
            LinkFault::OutOfMemory => 1,
            LinkFault::DuplicateId => 204,
            LinkFault::NoSuchTemplate => 210,
            LinkFault::MissingSlot => 211,
            LinkFault::ExtraSlot => 212,
        }
    }
}

impl From<AllocError> for LinkFault {
    ghost use Rattle.cedar_ast.specs.declared.link_fault.LinkFault.TheVariants.{OutOfMemory};

    ghost from_gives = { λ _ fault. fault ≡ OutOfMemory };

    fn from(_error: AllocError) -> LinkFault {
        LinkFault::OutOfMemory
    }
}

impl From<AddFault> for LinkFault {
    ghost from_gives = { λ fault link. number_of link ≡ add_fault_number fault };

    fn from(fault: AddFault) -> LinkFault {
        let same = same_fault(&fault);
        drop(fault);
        same
    }
}

// The fault of linking for the fault of adding the link.
fn same_fault(fault: &AddFault) -> LinkFault
    ensures { number_of result ≡ add_fault_number fault.now }
{
    match fault {
        AddFault::OutOfMemory(_) => LinkFault::OutOfMemory,
        AddFault::DuplicateId(_) => LinkFault::DuplicateId,
    }
}
