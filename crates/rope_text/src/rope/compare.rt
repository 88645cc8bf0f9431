//! Ropes compared by their bytes, however they are cut.
ghost use Rattle.std.specs.Prelude.{◌≡◌, ◌↔◌, ◌≤◌, length, IsTrue};
ghost use Rattle.std.specs.Cmp.{partial_equiv_from_equiv, on_per, on_equiv};
ghost use Rattle.std.specs.Cmp.Lexicographic.{nat_list_eq_equiv};
ghost use Rattle.rope_text.specs.Ropes.{ropes_have_equal_bytes};

use crate::rope::Rope;
use tendril_text::Atomicity;

/// Two ropes are equal if their bytes are, whatever their pieces. One pass over both; allocates nothing.
///
/// ```
/// let mut one = Rope::new(alloc);
/// one.push_tendril(StrTendril::from_slice(alloc, "ab")?)?;
/// let mut two = Rope::new(alloc);
/// two.push_tendril(StrTendril::from_slice(alloc, "a")?)?;
/// two.push_tendril(StrTendril::from_slice(alloc, "b")?)?;
/// assert_eq!(rt; one == two, true);
/// ```
impl<A: Atomicity> PartialEq for Rope<A> {
    ghost eq = { ropes_have_equal_bytes };

    ghost laws = { on_per (λ r. r.bytes) (partial_equiv_from_equiv nat_list_eq_equiv) };

    fn eq(&self, other: &Self) -> bool {
        self.total == other.total && self.has_bytes_of(other)
    }
}

impl<A: Atomicity> Eq for Rope<A> {
    ghost laws = { on_equiv (λ r. r.bytes) nat_list_eq_equiv };
}

impl<A: Atomicity> Rope<A> {
    // Whether a rope of equal length has equal bytes.
    fn has_bytes_of(&self, other: &Self) -> bool
        requires { length self.now.bytes ≡ length other.now.bytes }
        ensures { IsTrue result ↔ (self.now.bytes ≡ other.now.bytes) }
    {
        let mut at = 0;
        while at < self.total {
            let mine = self.rest_at(at);
            let others = other.rest_at(at);
            let count = mine.len().min(others.len());
            if mine[..count] != others[..count] {
                return false;
            }
            at += count as u64;
        }
        true
    }
}
