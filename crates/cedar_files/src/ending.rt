//! How the program ends.
ghost use Rattle.std.specs.Prelude.{◌≡◌};
ghost use Rattle.cedar_files.specs.Ending.{status_of};

use base_lines::WriteFailed;
use std::alloc::AllocError;

/// How the program ends.
#[derive(Clone, Copy, Debug, PartialEq, Eq)]
pub enum End {
    /// 0: the work was done, whatever was decided or refused.
    Done,
    /// 2: a file was refused, and a line on standard output says which and by which number.
    Refused,
    /// 3: the policies have faults.
    Faults,
    /// 4: the command line was refused.
    CommandLine,
    /// 1: a file can't be read, or standard input or output failed.
    Device,
    /// 1: memory ran out.
    Memory,
}

impl End {
    /// The exit status.
    pub fn status(self) -> u8
        ensures { result ≡ status_of self }
    {
        match self {
            End::Done => 0,
            End::Refused => 2,
            End::Faults => 3,
            End::CommandLine => 4,
            End::Device | End::Memory => 1,
        }
    }
}

impl From<AllocError> for End {
    ghost use Rattle.cedar_files.specs.declared.ending.End.TheVariants.{Memory};

    ghost from_gives = { λ _ end. end ≡ Memory };

    fn from(_error: AllocError) -> End {
        End::Memory
    }
}

impl From<WriteFailed> for End {
    ghost use Rattle.cedar_files.specs.declared.ending.End.TheVariants.{Device};

    ghost from_gives = { λ _ end. end ≡ Device };

    fn from(_error: WriteFailed) -> End {
        End::Device
    }
}
