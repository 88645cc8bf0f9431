//! Classes of characters.
ghost use Rattle.std.specs.Prelude.{◌≡◌, ℕ};

/// Sorts characters into numbered classes. A run of characters ends where the class changes.
pub trait Classifier {
    /// The class of a character.
    ghost class: { Self → ℕ → ℕ };

    /// Returns the class of a character, which is the same at each call.
    fn class_of(&self, character: char) -> u32
        ensures { result ≡ class self.now character };
}

/// White space, the 25 characters with Unicode's property White_Space, is class 0, and all else class 1.
pub struct WhiteSpace;

impl Classifier for WhiteSpace {
    ghost use Rattle.tendril_run.specs.WhiteSpace.{class};

    ghost class = { λ _ character. class character };

    fn class_of(&self, character: char) -> u32 {
        if character.is_whitespace() { 0 } else { 1 }
    }
}
