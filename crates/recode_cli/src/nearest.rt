//! The labels that are most like a word.

use std::alloc::{AllocError, Global};
use strsim::levenshtein;
use tendril_encoding::labels;

/// The maximal number of labels that are named.
const NEAREST: usize = 3;

/// A label, and how many characters have to be inserted, removed or replaced to make it of a word.
#[derive(Clone, Copy)]
struct Near {
    distance: usize,
    label: &'static str,
}

/// The three labels that need the fewest changes, as a list with commas: the nearest first, and of those that need as
/// many, the first in the order of the table.
pub fn nearest(alloc: Global, word: &str) -> Result<String, AllocError> {
    let word = word.trim().to_ascii_lowercase(alloc)?;
    let mut found = Vec::with_capacity(alloc, labels().len())?;
    for row in labels() {
        let distance = levenshtein(alloc, word.as_str(), row.label)?;
        found.push(Near {
            distance,
            label: row.label,
        })?;
    }
    found.sort_by_key(|near| near.distance)?;
    let names = found
        .iter()
        .take(NEAREST)
        .map(|near| near.label)
        .collect::<Vec<&str>>(alloc)?;
    names.join(alloc, ", ")
}
