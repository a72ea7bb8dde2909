//! Why a line of a script is no command.
ghost use Rattle.std.specs.Prelude.{◌≡◌};
ghost use Rattle.syntax.specs.declared.fault.Fault.TheVariants.{OutOfMemory};

use std::alloc::{AllocError, AllocFailed};
use std::fmt;

/// Why a line is no command.
#[derive(Clone, Copy, PartialEq, Eq, Debug, Drop)]
pub enum Fault {
    /// No command, board or carrier has this name.
    UnknownWord,
    /// A word is missing at the end.
    WordMissing,
    /// More words than the command has.
    WordTooMany,
    /// A word that should be a number has a byte that is no digit of it.
    NoNumber,
    /// A number is greater than its place allows.
    OutOfRange,
    /// A string of bytes has an odd number of digits.
    OddDigits,
    /// A string of bytes has a byte that is no hexadecimal digit.
    NoDigits,
    /// An item does not end in `+` or `-`.
    NoSwitch,
    /// A room stands at a call that works in no buffer.
    NoRoom,
    /// No memory is left.
    OutOfMemory,
}

// One for each error of an allocation, since `?` asks for it.
impl From<AllocError> for Fault {
    ghost from_gives = { λ _ r. r ≡ OutOfMemory };

    fn from(_error: AllocError) -> Fault {
        Fault::OutOfMemory
    }
}

impl<T: Drop> From<AllocFailed<T>> for Fault {
    ghost from_gives = { λ _ r. r ≡ OutOfMemory };

    fn from(_refused: AllocFailed<T>) -> Fault {
        Fault::OutOfMemory
    }
}

impl fmt::Display for Fault {
    fn fmt<W: fmt::Write>(&self, f: &mut fmt::Formatter<W>) -> fmt::Result {
        let words = match self {
            Fault::UnknownWord => "an unknown word",
            Fault::WordMissing => "a word is missing",
            Fault::WordTooMany => "a word too many",
            Fault::NoNumber => "not a number",
            Fault::OutOfRange => "a number is out of range",
            Fault::OddDigits => "an odd number of hex digits",
            Fault::NoDigits => "not hex digits",
            Fault::NoSwitch => "an item ends in neither + nor -",
            Fault::NoRoom => "this call takes no room",
            Fault::OutOfMemory => "out of memory",
        };
        write!(f, "{words}")
    }
}
