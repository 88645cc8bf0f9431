//! Texts of strings.

use crate::notes::Notes;
use std::alloc::Global;
use tendril::fmt::UTF8;
use tendril::{Atomicity, Tendril};

/// A text of this string. Notes an error, and returns an empty text then.
pub fn text_of<A: Atomicity>(notes: &mut Notes, alloc: Global, string: &str) -> Tendril<UTF8, A> {
    notes.or(
        0,
        Tendril::<UTF8, A>::from_slice(alloc, string),
        Tendril::new(alloc),
    )
}
