// Why a line cannot be read, and the words that say so to people.
ghost use Rattle.std.specs.Prelude.{◌≡◌};
ghost use Rattle.protocol.specs.declared.bad.Bad.TheVariants.{NoMemory};

use std::alloc::{AllocError, AllocFailed};
use std::error::Error;
use std::fmt;

#[derive(Clone, Copy, PartialEq, Eq, Debug)]
pub enum Bad {
    NotANumber,
    TooLarge,
    NotHex,
    OddDigits,
    MissingPart,
    ExtraPart,
    UnknownRequest,
    UnknownSource,
    UnknownLayer,
    TooManyLayers,
    NoMemory,
}

impl Bad {
    // The reason in words. It cannot fail, as a derived Display could, so the words stand here.
    pub fn reason(self) -> &'static str {
        match self {
            Bad::NotANumber => "not a number",
            Bad::TooLarge => "number too large",
            Bad::NotHex => "not a lower-case hexadecimal digit",
            Bad::OddDigits => "odd count of hexadecimal digits",
            Bad::MissingPart => "missing part",
            Bad::ExtraPart => "too many parts",
            Bad::UnknownRequest => "unknown request",
            Bad::UnknownSource => "unknown source",
            Bad::UnknownLayer => "unknown layer",
            Bad::TooManyLayers => "too many layers",
            Bad::NoMemory => "out of memory",
        }
    }
}

impl fmt::Display for Bad {
    fn fmt<W: fmt::Write>(&self, f: &mut fmt::Formatter<W>) -> fmt::Result {
        let reason = self.reason();
        write!(f, "{reason}")
    }
}

impl Error for Bad {}

// Both are written out, since clauses name the error that `?` makes, and a derived `From` has no contract.
impl From<AllocError> for Bad {
    ghost from_gives = { λ _ r. r ≡ NoMemory };

    fn from(_e: AllocError) -> Bad {
        Bad::NoMemory
    }
}

impl<T: Drop> From<AllocFailed<T>> for Bad {
    ghost from_gives = { λ _ r. r ≡ NoMemory };

    fn from(_e: AllocFailed<T>) -> Bad {
        Bad::NoMemory
    }
}
