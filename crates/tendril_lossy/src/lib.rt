//! Lossy decoding of UTF-8: what a stream of bytes decodes to, and the search for broken sequences.
#![tactic(auto)]

mod completion;
mod last_text;
mod search;
mod theorems;

pub use completion::{Completion, ShortText, complete};
pub use last_text::{FEW_BEFORE, LastText};
pub use search::{Ending, first_part, first_part_by};
pub use theorems::laws;
