//! Compact shared text: up to 8 bytes are stored inline, longer text is shared with its clones and slices and copied
//! only when one of them is changed.
//!
//! This crate has a macro and no function of its own. It re-exports the texts of `tendril_text`, the streams of
//! `tendril_stream` and the crates below them under the names of the Rust crate.
#![tactic(auto)]

pub use tendril_block as block;
pub use tendril_block::{Atomic, Atomicity, NonAtomic};
pub use tendril_fmt::fmt::{CharFormat, Format};
pub use tendril_fmt::{fmt, futf};
pub use tendril_lossy as lossy;
pub use tendril_stream as stream;
pub use tendril_stream::{ReadExt, TendrilSink};
pub use tendril_text::{
    ByteSet, ByteTendril, CallsClosure, ClosureText, Field, IncompleteUtf8, IntoCharRuns,
    IntoChars, IntoLines, IntoSplit, LastText, Members, Receiving, SendTendril, SetResult,
    SplitAtAny, StrTendril, SubtendrilError, Tendril, View, slice_to_tendril, str_to_tendril,
};

/// Returns the text that `format!` would print.
///
/// Returns `TooLong` if it would have more than 4294967295 bytes, or `Memory` if an allocation fails.
///
/// ```
/// let text = format_tendril!(in alloc; "two and two make {}", 2 + 2)?;
/// assert_eq!(rt; text.as_str(), "two and two make 4");
/// ```
#[macro_export]
macro_rules! format_tendril {
    (in $alloc:expr; $($arg:tt)+) => {
        $crate::StrTendril::format($alloc, &format_args!($($arg)+))
    };
}
