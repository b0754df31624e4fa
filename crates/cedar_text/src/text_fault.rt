use std::alloc::{AllocError, AllocFailed};
use thiserror::Error;

/// Why a text has no tokens, with the place of the fault in bytes from 0.
#[derive(Clone, Copy, Debug, PartialEq, Eq, Error)]
pub enum TextFault {
    /// Out of memory, or a token begins at 4 GiB or later.
    #[error("out of memory")]
    OutOfMemory,
    /// No token begins with the character there.
    #[error("no token begins with the character at {0}")]
    BadCharacter(usize),
    /// The string that begins there is not closed.
    #[error("the string at {0} is not closed")]
    UnclosedString(usize),
    /// The backslash there begins no escape.
    #[error("no escape begins at {0}")]
    BadEscape(usize),
    /// The digits that begin there are above 9223372036854775808.
    #[error("the number at {0} is too large")]
    NumberTooLarge(usize),
}

impl TextFault {
    ghost use Rattle.std.specs.Prelude.{◌≡◌};
    ghost use Rattle.cedar_text.specs.Faults.{number_of, offset_of};

    /// The number of the refusal, as the program prints it: 1, or 101 to 104.
    pub fn number(self) -> u16
        ensures { result ≡ number_of self }
    {
        match self {
            TextFault::OutOfMemory => 1,
            TextFault::BadCharacter(_) => 101,
            TextFault::UnclosedString(_) => 102,
            TextFault::BadEscape(_) => 103,
            TextFault::NumberTooLarge(_) => 104,
        }
    }

    /// The place of the fault, in bytes from 0. Out of memory has no place.
    pub fn offset(self) -> Option<usize>
        ensures { result ≡ offset_of self }
    {
        match self {
            TextFault::OutOfMemory => None,
            TextFault::BadCharacter(at)
            | TextFault::UnclosedString(at)
            | TextFault::BadEscape(at)
            | TextFault::NumberTooLarge(at) => Some(at),
        }
    }
}

impl From<AllocError> for TextFault {
    ghost use Rattle.std.specs.Prelude.{◌≡◌};
    ghost use Rattle.cedar_text.specs.declared.text_fault.TextFault.TheVariants.{OutOfMemory};

    ghost from_gives = { λ _ e. e ≡ OutOfMemory };

    fn from(_: AllocError) -> TextFault {
        TextFault::OutOfMemory
    }
}

impl<T: Drop> From<AllocFailed<T>> for TextFault {
    ghost use Rattle.std.specs.Prelude.{◌≡◌};
    ghost use Rattle.cedar_text.specs.declared.text_fault.TextFault.TheVariants.{OutOfMemory};

    ghost from_gives = { λ _ e. e ≡ OutOfMemory };

    fn from(_: AllocFailed<T>) -> TextFault {
        TextFault::OutOfMemory
    }
}
