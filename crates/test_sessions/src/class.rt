//! Classes of characters.
ghost use Rattle.std.specs.Prelude.{if◌then◌else◌};
ghost use Rattle.std.specs.Char.{is_whitespace};

use std::cell::Cell;
use tendril_run::Classifier;

/// A classifier that counts its calls. White space is class 0, everything else class 1.
#[derive(Drop)]
pub struct Counting {
    calls: Cell<u32>,
}

impl Counting {
    pub fn new() -> Self {
        Counting {
            calls: Cell::new(0),
        }
    }

    /// Returns the number of calls since the last `take_calls`.
    pub fn take_calls(&self) -> u32 {
        let calls = self.calls.get();
        self.calls.set(0);
        calls
    }
}

impl Classifier for Counting {
    ghost class = { λ _ character. if is_whitespace character then 0 else 1 };

    fn class_of(&self, character: char) -> u32 {
        self.calls.set(self.calls.get().saturating_add(1));
        if character.is_whitespace() { 0 } else { 1 }
    }
}
