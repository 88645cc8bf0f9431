//! The first difference from the expected. A test that notes one continues, and fails at its end.

use std::fmt::{Debug, Display, InlineText};
use std::test::Fail;

/// The maximal length of a note, in bytes. Longer ones are cut.
const LONGEST: usize = 400;

/// The first difference from the expected; later ones aren't kept. It can't be dropped, so a test has to call `end`.
pub struct Notes {
    first: Option<InlineText<LONGEST>>,
}

impl Notes {
    /// Creates notes without a difference.
    pub fn new() -> Self {
        Notes { first: None }
    }

    /// Notes a value that differs from the expected one.
    pub fn same<T: PartialEq + Debug + Drop>(&mut self, row: usize, found: T, expected: T) {
        if found != expected {
            self.add(format_args!("row {row}: {found:?} came in place of {expected:?}"));
        }
    }

    /// Notes a statement that doesn't hold.
    pub fn holds(&mut self, row: usize, holds: bool, what: &str) {
        if !holds {
            self.add(format_args!("row {row}: not so: {what}"));
        }
    }

    /// Notes an error.
    pub fn done<E: Debug + Drop>(&mut self, row: usize, found: Result<(), E>) {
        if let Err(error) = found {
            self.add(format_args!("row {row}: error: {error:?}"));
        }
    }

    /// Returns the value. Notes an error, and returns `otherwise` then.
    pub fn or<T: Drop, E: Debug + Drop>(
        &mut self,
        row: usize,
        found: Result<T, E>,
        otherwise: T,
    ) -> T {
        match found {
            Ok(value) => value,
            Err(error) => {
                self.add(format_args!("row {row}: error: {error:?}"));
                otherwise
            }
        }
    }

    /// Returns the value. Notes that there is none, and returns `otherwise` then.
    pub fn some<T: Drop>(&mut self, row: usize, found: Option<T>, otherwise: T) -> T {
        match found {
            Some(value) => value,
            None => {
                self.add(format_args!("row {row}: no value"));
                otherwise
            }
        }
    }

    /// Fails with the note, if there is one.
    pub fn end(self) -> Result<(), Fail> {
        let Notes { first } = self;
        match first {
            None => Ok(()),
            Some(text) => Err(Fail::new(text.as_str())),
        }
    }

    fn add<D: Display + Drop>(&mut self, what: D) {
        if self.first.is_none() {
            self.first = Some(InlineText::of(what));
        }
    }
}
