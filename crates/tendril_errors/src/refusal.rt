//! Why a call returns an error: one list of reasons for the whole repository.
ghost use Rattle.std.specs.Prelude.{◌≡◌, Some};
ghost use Rattle.tendril_errors.specs.Refusals.{number_of, name_of, refusal_text};

use std::alloc::{AllocError, AllocFailed};
use std::error::Error;
use std::{fmt, io};

/// Why a call failed: the error of every call here. The numbers and names are part of the product: programs print them.
///
/// If several apply, a call returns the first in this order: 13, 14, 5, 6, 4, 7, 1. Count (3) and Memory (2) come after
/// these, in either order.
#[derive(Clone, Copy, Debug, PartialEq, Eq, Hash)]
pub enum Refusal {
    /// The resulting text would have more than 4294967295 bytes.
    TooLong = 1,
    /// An allocation failed.
    Memory = 2,
    /// The block has as many references as it can have.
    Count = 3,
    /// The bytes aren't valid in the format.
    Invalid = 4,
    /// An offset, a length or an index is past the text.
    OutOfBounds = 5,
    /// The slice isn't valid in the format.
    ValidationFailed = 6,
    /// The format can't represent the character.
    NotInFormat = 7,
    /// The end of the input wasn't reached within the given number of reads.
    TooManyReads = 8,
    /// A read, an open or a write failed.
    Io = 9,
    /// The inner sink returned an error.
    SinkRefused = 10,
    /// This decoder returned an error before.
    Failed = 11,
    /// A worker couldn't be started.
    NotStarted = 12,
    /// No such slot, or it is gone.
    NoSuchSlot = 13,
    /// The slot's format doesn't have the command.
    WrongFormat = 14,
}

impl Refusal {
    /// Returns the number, from 1 to 14: 1 for `TooLong`.
    pub fn number(self) -> u8
        ensures { result ≡ number_of self }
    {
        self as u8
    }

    /// Returns the name, such as `TooLong`.
    pub fn name(self) -> &'static str
        ensures { result.now ≡ name_of self }
    {
        match self {
            Refusal::TooLong => "TooLong",
            Refusal::Memory => "Memory",
            Refusal::Count => "Count",
            Refusal::Invalid => "Invalid",
            Refusal::OutOfBounds => "OutOfBounds",
            Refusal::ValidationFailed => "ValidationFailed",
            Refusal::NotInFormat => "NotInFormat",
            Refusal::TooManyReads => "TooManyReads",
            Refusal::Io => "Io",
            Refusal::SinkRefused => "SinkRefused",
            Refusal::Failed => "Failed",
            Refusal::NotStarted => "NotStarted",
            Refusal::NoSuchSlot => "NoSuchSlot",
            Refusal::WrongFormat => "WrongFormat",
        }
    }
}

/// Prints the number and the name, such as `1 TooLong`.
impl fmt::Display for Refusal {
    ghost output = { λ r. Some (refusal_text r) };

    fn fmt<W: fmt::Write>(&self, f: &mut fmt::Formatter<W>) -> fmt::Result {
        write!(f, "{} {}", self.number(), self.name())
    }
}

impl Error for Refusal {}

/// `Memory`, so that `?` passes up a failed allocation.
impl From<AllocError> for Refusal {
    ghost use Rattle.tendril_errors.specs.declared.refusal.Refusal.TheVariants.{Memory};

    ghost from_gives = { λ _ r. r ≡ Memory };

    fn from(_: AllocError) -> Self {
        Refusal::Memory
    }
}

/// `Memory`, so that `?` passes up a failed push onto a `Vec`. The value that wasn't stored is dropped.
impl<T: Drop> From<AllocFailed<T>> for Refusal {
    ghost use Rattle.tendril_errors.specs.declared.refusal.Refusal.TheVariants.{Memory};

    ghost from_gives = { λ _ r. r ≡ Memory };

    fn from(_: AllocFailed<T>) -> Self {
        Refusal::Memory
    }
}

/// `Memory` if the error is `OutOfMemory`, else `Io`, so that `?` passes up a failed read or write.
impl From<io::Error> for Refusal {
    ghost use Rattle.std.specs.Prelude.{◌≢◌};
    ghost use Rattle.std.specs.IoError.{error_kind};
    ghost use Rattle.std.specs.declared.io.ErrorKind.TheVariants.{OutOfMemory};
    ghost use Rattle.tendril_errors.specs.declared.refusal.Refusal.TheVariants.{Io, Memory};

    ghost from_gives = { λ error r. (error_kind error ≡ OutOfMemory → r ≡ Memory)
        × (error_kind error ≢ OutOfMemory → r ≡ Io) };

    fn from(error: io::Error) -> Self {
        match error.kind() {
            io::ErrorKind::OutOfMemory => Refusal::Memory,
            _ => Refusal::Io,
        }
    }
}

/// The error of a call that also returns its argument, so that `?` passes up the error. The argument is dropped.
impl<T: Drop> From<(Refusal, T)> for Refusal {
    ghost from_gives = { λ refused r. r ≡ refused.0 };

    fn from(refused: (Refusal, T)) -> Self {
        refused.0
    }
}
