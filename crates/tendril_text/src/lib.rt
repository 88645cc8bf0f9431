//! Compact shared text: up to 8 bytes are stored inline, longer text is shared with its clones and slices and copied
//! only when one of them is changed.
#![tactic(auto)]

mod chars;
mod items;
mod iter;
mod search;
mod tendril;
mod utf8_decode;

pub use crate::iter::{IntoCharRuns, IntoChars, IntoLines, IntoSplit, SplitAtAny};
pub use crate::search::SetResult;
pub use crate::tendril::{
    ByteTendril, Field, SendTendril, StrTendril, Tendril, View, slice_to_tendril, str_to_tendril,
};
pub use crate::utf8_decode::{
    CallsClosure, ClosureText, IncompleteUtf8, Receiving, StreamText, replace_by,
};
pub use tendril_block as block;
pub use tendril_block::{Atomic, Atomicity, NonAtomic, SubtendrilError};
pub use tendril_fmt::cuts::{ByteSet, Members};
pub use tendril_fmt::fmt::{CharFormat, Format};
pub use tendril_fmt::{fmt, futf};
pub use tendril_lossy as lossy;
pub use tendril_lossy::LastText;
