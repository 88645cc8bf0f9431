//! Iterators that own a text and split it.
//!
//! A `while let` loop over pops needs a measure in a proof file; a `for` loop over these iterators needs none, since
//! the text's length bounds the number of items. No item follows an error, else there would be no bound; the remaining
//! text is in `rest`.

mod chars;
mod lines;
mod parts;
mod pieces;
mod runs;
mod split;

pub use crate::iter::chars::IntoChars;
pub use crate::iter::lines::IntoLines;
pub use crate::iter::parts::SplitAtAny;
pub use crate::iter::runs::IntoCharRuns;
pub use crate::iter::split::IntoSplit;
