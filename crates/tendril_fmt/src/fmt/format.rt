//! The trait of all formats.

use crate::fmt::fixup::Fixup;

/// A format: which lists of bytes are valid, and how two of them join.
///
/// The three tests of a prefix, a suffix and a slice accept any bytes, and need not read all of them: their result is
/// specified only if the bytes are a prefix, a suffix or a slice of valid ones.
pub trait Format {
    ghost use Rattle.std.specs.Prelude.{◌≡◌, ◌≤◌, ℕ, List, [], length, IsTrue, ◌↔◌};
    ghost use Rattle.tendril_fmt.specs.Bytes.{AreBytes};
    ghost use Rattle.tendril_fmt.specs.Joins.{joined_by};
    ghost use Rattle.tendril_fmt.specs.Parts.{IsFrontOf, IsEndOf, IsSliceOf};

    /// The lists of bytes that are valid.
    ghost valid: { List ℕ → Type 0 };

    /// Two valid lists as one.
    ghost join: { List ℕ → List ℕ → List ℕ };

    /// Whether the bytes are valid. In the formats here it takes at most linear time.
    fn validate(bytes: &[u8]) -> bool
        ensures { IsTrue result ↔ valid bytes.now };

    /// Whether a prefix of valid bytes is valid.
    fn validate_prefix(front: &[u8]) -> bool
        ensures { (whole : List ℕ) → valid whole → IsFrontOf front.now whole
            → (IsTrue result ↔ valid front.now) }
    {
        Self::validate(front)
    }

    /// Whether a suffix of valid bytes is valid.
    fn validate_suffix(end: &[u8]) -> bool
        ensures { (whole : List ℕ) → valid whole → IsEndOf end.now whole → (IsTrue result ↔ valid end.now) }
    {
        Self::validate(end)
    }

    /// Whether a slice of valid bytes is valid.
    fn validate_subseq(slice: &[u8]) -> bool
        ensures { (whole : List ℕ) → valid whole → IsSliceOf slice.now whole
            → (IsTrue result ↔ valid slice.now) }
    {
        Self::validate(slice)
    }

    // No default body: it would be proved once for all formats, whatever their `join` is.
    /// What the join of two valid texts changes where they meet. A format whose join only concatenates returns
    /// `Fixup::default()`.
    fn fixup(left: &[u8], right: &[u8]) -> Fixup
        requires left_valid { valid left.now }
        requires right_valid { valid right.now }
        ensures joins { join left.now right.now ≡ joined_by result left.now right.now }
        ensures drops_left { result.drop_left ≤ length left.now }
        ensures drops_right { result.drop_right ≤ length right.now }
        ensures inserts { result.insert_len ≤ 4 };

    /// The empty text is valid.
    ghost empty_valid: { valid [] };

    /// Valid texts join to a valid one.
    ghost join_valid: { (l r : List ℕ) → valid l → valid r → valid (join l r) };

    /// Each number of a valid list is below 256: a byte.
    ghost are_bytes: { (bytes : List ℕ) → valid bytes → AreBytes bytes };
}
