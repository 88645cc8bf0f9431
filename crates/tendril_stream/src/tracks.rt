//! Sinks with a property that follows from all that they were sent.

use crate::sink::{StreamText, TendrilSink};

/// A sink with a property that follows from the characters and errors that it was sent, in order.
pub trait Tracks<T: StreamText>: TendrilSink<T> {
    ghost use Rattle.std.specs.Prelude.{List};
    ghost use Rattle.tendril_lossy.specs.Lossy.{Told};
    ghost use Rattle.tendril_stream.specs.Compositions.{FollowsCalls};

    /// `after sink told`: the property of a sink that was sent the list `told`.
    ghost after: { Self → List Told → Type 0 };

    /// If `after a told` holds, and accepting e turns the sink a into b, then `after b (told ++ told_of e)` holds. Only
    /// texts in UTF-8 that aren't empty are considered.
    ghost goes_on: { FollowsCalls Self.takes after };
}
