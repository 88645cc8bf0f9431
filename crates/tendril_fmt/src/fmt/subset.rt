//! Formats whose valid bytes are valid in another format too.

use crate::fmt::format::Format;

/// A format whose valid bytes are all valid in `Super` too, so that a text can change its format and keep its bytes.
pub trait SubsetOf<Super: Format>: Format {
    ghost use Rattle.std.specs.Prelude.{ℕ, List, IsTrue, ◌↔◌};

    /// Whether bytes that are valid in `Super` are valid in this format too.
    fn revalidate_subset(bytes: &[u8]) -> bool
        ensures { Super.valid bytes.now → (IsTrue result ↔ Self.valid bytes.now) }
    {
        Self::validate(bytes)
    }

    /// What is valid in the subset is valid in the superset.
    ghost subset_valid: { (bytes : List ℕ) → Self.valid bytes → Super.valid bytes };
}
