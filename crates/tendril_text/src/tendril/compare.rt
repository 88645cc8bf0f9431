//! Comparison and hashing of texts, by their bytes alone: `copied` and sharing don't matter.
ghost use Rattle.std.specs.Prelude.{◌≡◌, ◌↔◌, IsTrue, Some, refl};
ghost use Rattle.std.specs.Cmp.{partial_equiv_from_equiv, on_per, on_equiv, on_po, on_total};
ghost use Rattle.std.specs.Cmp.Lexicographic.{bytes_decides, nat_list_eq_equiv, nat_list_cmp_total, texts_po};
ghost use Rattle.std.specs.Cmp.Lexicographic.{texts_ties};
ghost use Rattle.std.proofs.Common.{ap};
ghost use Rattle.tendril_text.specs.Comparisons.{have_equal_bytes, bytes_order, hashed_bytes};

use crate::tendril::Tendril;
use std::cmp::Ordering;
use std::hash::{Hash, Hasher};
use tendril_block::Atomicity;
use tendril_fmt::fmt::{ASCII, Bytes, Format, UTF8};

/// Two texts are equal if their bytes are.
///
/// ```
/// let text = StrTendril::from_slice(alloc, "abc")?;
/// assert_eq!(rt; text == text.clone()?, true);
/// ```
impl<F: Format, A: Atomicity> PartialEq for Tendril<F, A> {
    ghost eq = { have_equal_bytes };

    ghost laws = { on_per (λ t. t.bytes) (partial_equiv_from_equiv nat_list_eq_equiv) };

    fn eq(&self, other: &Self) -> bool {
        self.as_byte_slice() == other.as_byte_slice()
    }
}

impl<F: Format, A: Atomicity> Eq for Tendril<F, A> {
    ghost laws = { on_equiv (λ t. t.bytes) nat_list_eq_equiv };
}

/// Hashes the number of bytes and then the bytes, in one pass.
impl<F: Format, A: Atomicity> Hash for Tendril<F, A> {
    ghost hash_input = { λ t. hashed_bytes t.bytes };

    ghost respects_eq = { λ x y same. ap hashed_bytes ((bytes_decides x.bytes y.bytes).0 same) };

    fn hash<H: Hasher>(&self, state: &mut H) {
        let bytes = self.as_byte_slice();
        state.write_usize(bytes.len());
        // One write for all bytes: a write for each would cost the hasher a multiplication each.
        state.write(bytes);
    }
}

impl<A: Atomicity> PartialOrd for Tendril<UTF8, A> {
    ghost partial_cmp = { λ x y. Some (bytes_order x y) };

    ghost laws = { on_po (λ t. t.bytes) texts_po };

    fn partial_cmp(&self, other: &Self) -> Option<Ordering> {
        Some(self.cmp(other))
    }
}

/// Texts are ordered as strings are: byte by byte, which in UTF-8 is the order of the code points.
///
/// ```
/// let text = StrTendril::from_slice(alloc, "abc")?;
/// assert_eq!(rt; text < StrTendril::from_slice(alloc, "b")?, true);
/// ```
impl<A: Atomicity> Ord for Tendril<UTF8, A> {
    ghost cmp = { bytes_order };

    ghost total = { on_total (λ t. t.bytes) nat_list_cmp_total };

    ghost matches_partial_cmp = { λ x y. refl };

    ghost matches_eq = { λ x y. texts_ties x.bytes y.bytes };

    fn cmp(&self, other: &Self) -> Ordering {
        self.as_str().cmp(other.as_str())
    }
}

impl<A: Atomicity> PartialOrd for Tendril<Bytes, A> {
    ghost partial_cmp = { λ x y. Some (bytes_order x y) };

    ghost laws = { on_po (λ t. t.bytes) texts_po };

    fn partial_cmp(&self, other: &Self) -> Option<Ordering> {
        Some(Ord::cmp(self, other))
    }
}

/// Texts are ordered byte by byte, as slices are.
impl<A: Atomicity> Ord for Tendril<Bytes, A> {
    ghost cmp = { bytes_order };

    ghost total = { on_total (λ t. t.bytes) nat_list_cmp_total };

    ghost matches_partial_cmp = { λ x y. refl };

    ghost matches_eq = { λ x y. texts_ties x.bytes y.bytes };

    fn cmp(&self, other: &Self) -> Ordering {
        self.as_byte_slice().cmp(other.as_byte_slice())
    }
}

impl<A: Atomicity> Tendril<UTF8, A> {
    /// Whether the text equals the string. One pass to the first difference.
    ///
    /// ```
    /// let text = StrTendril::from_slice(alloc, "abc")?;
    /// assert_eq!(rt; text.eq_str("abc"), true);
    /// ```
    pub fn eq_str(&self, text: &str) -> bool
        ensures { IsTrue result ↔ (self.now.bytes ≡ text.now) }
    {
        self.as_str() == text
    }
}

impl<A: Atomicity> Tendril<ASCII, A> {
    /// Whether the text equals the string. One pass to the first difference.
    ///
    /// ```
    /// let text = Tendril::<ASCII>::try_from_byte_slice(alloc, b"abc")?;
    /// assert_eq!(rt; text.eq_str("abc"), true);
    /// ```
    pub fn eq_str(&self, text: &str) -> bool
        ensures { IsTrue result ↔ (self.now.bytes ≡ text.now) }
    {
        self.as_byte_slice() == text.as_bytes()
    }
}
