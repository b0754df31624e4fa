//! Why files hold no policies that are ready to answer.
ghost use Rattle.std.specs.Prelude.{◌≡◌};
ghost use Rattle.cedar_files.specs.Private.Unusable.{unusable_of};

use crate::files::Role;
use crate::reading::Unread;
use crate::refusal::FileRefusal;
use cedar_auth::NotValidated;
use std::alloc::AllocError;
use std::fmt;
use thiserror::Error;

/// Why files hold no policies that are ready to answer.
#[derive(Drop, Error)]
pub enum Unprepared {
    /// A file is refused: which one, and why.
    #[error("a file is refused")]
    Refused(Role, FileRefusal),
    /// Strict validation finds faults in the policies, which are handed back with the schema and the report.
    #[error("the policies have faults")]
    Faults(NotValidated),
    /// A file that is needed is not named.
    #[error("a file is not named")]
    Unnamed,
    /// A file can't be read.
    #[error("a file cannot be read")]
    Device,
    /// Memory ran out.
    #[error("out of memory")]
    Memory,
}

impl fmt::Debug for Unprepared {
    fn fmt<W: fmt::Write>(&self, f: &mut fmt::Formatter<W>) -> fmt::Result {
        match self {
            Unprepared::Refused(..) => write!(f, "Refused"),
            Unprepared::Faults(_) => write!(f, "Faults"),
            Unprepared::Unnamed => write!(f, "Unnamed"),
            Unprepared::Device => write!(f, "Device"),
            Unprepared::Memory => write!(f, "Memory"),
        }
    }
}

impl From<AllocError> for Unprepared {
    ghost use Rattle.cedar_files.specs.declared.unprepared.Unprepared.TheVariants.{Memory};

    ghost from_gives = { λ _ why. why ≡ Memory };

    fn from(_error: AllocError) -> Unprepared {
        Unprepared::Memory
    }
}

/// What a file of this role that cannot be used is to all files.
pub(crate) fn unusable(role: Role, unread: Unread) -> Unprepared
    ensures { result ≡ unusable_of role unread }
{
    match unread {
        Unread::Refused(refusal) => Unprepared::Refused(role, refusal),
        Unread::Unnamed => Unprepared::Unnamed,
        Unread::Device => Unprepared::Device,
        Unread::Memory => Unprepared::Memory,
    }
}
