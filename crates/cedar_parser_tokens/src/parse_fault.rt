//! Why a policy text or a uid is not read.
use cedar_text::TextFault;
use std::alloc::{AllocError, AllocFailed};
use thiserror::Error;

/// Why a text is not read, with the place of the fault in bytes from 0.
#[derive(Clone, Copy, Debug, PartialEq, Eq, Error)]
pub enum ParseFault {
    /// 1: out of memory, or a token begins at 4 GiB or later.
    #[error("out of memory")]
    OutOfMemory,
    /// 101 to 104: the text has no tokens.
    #[error("{0}")]
    Text(TextFault),
    /// 104: the digits that begin there are above 9223372036854775807.
    #[error("the number at {0} is too large")]
    NumberTooLarge(usize),
    /// 103: the escape `\*` is there, outside a pattern.
    #[error("the escape at {0} is outside a pattern")]
    EscapedStar(usize),
    /// 201: the grammar does not allow the text that is there.
    #[error("the text at {0} is unexpected")]
    Syntax(usize),
    /// 202: with the bracket or `if` that is there, more than 100 are open in a condition.
    #[error("the bracket or `if` at {0} nests too deep")]
    TooDeep(usize),
    /// 202: the condition of the statement that begins there is higher than 2,000 nodes.
    #[error("the condition of the statement at {0} is too high")]
    TooHigh(usize),
    /// 203: the key that is written there is already in its record.
    #[error("the key at {0} is in its record already")]
    DuplicateKey(usize),
    /// 204: a statement before the one that begins there has the same id.
    #[error("a statement before the one at {0} has its id")]
    DuplicateId(usize),
    /// 205: no function or method has the name that is there.
    #[error("there is no function or method of the name at {0}")]
    UnknownFunction(usize),
    /// 206: the function or method there takes another number of arguments: `isEmpty` none, all others one.
    #[error("the function or method at {0} takes another number of arguments")]
    Arity(usize),
    /// 207: there is a slot where none may be.
    #[error("the slot at {0} is where none may be")]
    SlotMisplaced(usize),
    /// 208: an annotation before the one that begins there has its name.
    #[error("an annotation before the one at {0} has its name")]
    DuplicateAnnotation(usize),
    /// 209: the condition of the statement that begins there has more than 100,000 nodes.
    #[error("the condition of the statement at {0} is too large")]
    TooLarge(usize),
}

impl ParseFault {
    ghost use Rattle.std.specs.Prelude.{◌≡◌};
    ghost use Rattle.cedar_parser_tokens.specs.Faults.{number_of, offset_of};

    /// The number of the refusal, as the program prints it.
    pub fn number(self) -> u16
        ensures { result ≡ number_of self }
    {
        match self {
            ParseFault::OutOfMemory => 1,
            ParseFault::Text(fault) => fault.number(),
            ParseFault::EscapedStar(_) => 103,
            ParseFault::NumberTooLarge(_) => 104,
            ParseFault::Syntax(_) => 201,
            ParseFault::TooDeep(_) | ParseFault::TooHigh(_) => 202,
            ParseFault::DuplicateKey(_) => 203,
            ParseFault::DuplicateId(_) => 204,
            ParseFault::UnknownFunction(_) => 205,
            ParseFault::Arity(_) => 206,
            ParseFault::SlotMisplaced(_) => 207,
            ParseFault::DuplicateAnnotation(_) => 208,
            ParseFault::TooLarge(_) => 209,
        }
    }

    /// The place of the fault, in bytes from 0. Out of memory has no place.
    pub fn offset(self) -> Option<usize>
        ensures { result ≡ offset_of self }
    {
        match self {
            ParseFault::OutOfMemory => None,
            ParseFault::Text(fault) => fault.offset(),
            ParseFault::NumberTooLarge(at)
            | ParseFault::EscapedStar(at)
            | ParseFault::Syntax(at)
            | ParseFault::TooDeep(at)
            | ParseFault::TooHigh(at)
            | ParseFault::DuplicateKey(at)
            | ParseFault::DuplicateId(at)
            | ParseFault::UnknownFunction(at)
            | ParseFault::Arity(at)
            | ParseFault::SlotMisplaced(at)
            | ParseFault::DuplicateAnnotation(at)
            | ParseFault::TooLarge(at) => Some(at),
        }
    }
}

impl From<AllocError> for ParseFault {
    ghost use Rattle.std.specs.Prelude.{◌≡◌};
    ghost use Rattle.cedar_parser_tokens.specs.declared.parse_fault.ParseFault.TheVariants.{OutOfMemory};

    ghost from_gives = { λ _ e. e ≡ OutOfMemory };

    fn from(_: AllocError) -> ParseFault {
        ParseFault::OutOfMemory
    }
}

impl<T: Drop> From<AllocFailed<T>> for ParseFault {
    ghost use Rattle.std.specs.Prelude.{◌≡◌};
    ghost use Rattle.cedar_parser_tokens.specs.declared.parse_fault.ParseFault.TheVariants.{OutOfMemory};

    ghost from_gives = { λ _ e. e ≡ OutOfMemory };

    fn from(_: AllocFailed<T>) -> ParseFault {
        ParseFault::OutOfMemory
    }
}

impl From<TextFault> for ParseFault {
    ghost use Rattle.std.specs.Prelude.{◌≡◌};
    ghost use Rattle.cedar_parser_tokens.specs.Faults.{of_text};

    ghost from_gives = { λ fault e. e ≡ of_text fault };

    fn from(fault: TextFault) -> ParseFault {
        match fault {
            TextFault::OutOfMemory => ParseFault::OutOfMemory,
            _ => ParseFault::Text(fault),
        }
    }
}
