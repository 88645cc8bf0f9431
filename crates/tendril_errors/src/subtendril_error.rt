//! The errors of slices, pops and splits.

use crate::refusal::Refusal;
use std::error::Error;
use std::fmt;

/// Why a slice, a pop or a split returned an error. Where several reasons apply, it is the first of these.
///
/// `?` turns it into a `Refusal`, and Display prints its name.
#[derive(Clone, Copy, Debug, PartialEq, Eq, Hash)]
pub enum SubtendrilError {
    /// The offset or the length is past the text's end.
    OutOfBounds,
    /// The slice, or what a pop or a split leaves, isn't valid in the format.
    ValidationFailed,
    /// The block has as many references as it can have.
    Count,
}

impl From<SubtendrilError> for Refusal {
    ghost use Rattle.std.specs.Prelude.{◌≡◌};
    ghost use Rattle.tendril_errors.specs.Errors.{refusal_of};

    ghost from_gives = { λ error refusal. refusal ≡ refusal_of error };

    fn from(error: SubtendrilError) -> Self {
        match error {
            SubtendrilError::OutOfBounds => Refusal::OutOfBounds,
            SubtendrilError::ValidationFailed => Refusal::ValidationFailed,
            SubtendrilError::Count => Refusal::Count,
        }
    }
}

impl fmt::Display for SubtendrilError {
    ghost use Rattle.std.specs.Prelude.{Some};
    ghost use Rattle.tendril_errors.specs.Errors.{refusal_of};
    ghost use Rattle.tendril_errors.specs.Refusals.{name_of};

    ghost output = { λ e. Some (name_of (refusal_of e)) };

    fn fmt<W: fmt::Write>(&self, f: &mut fmt::Formatter<W>) -> fmt::Result {
        f.write_str(Refusal::from(*self).name())
    }
}

impl Error for SubtendrilError {}
