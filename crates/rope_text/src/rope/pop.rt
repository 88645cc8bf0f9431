//! Pops of characters at the start of a rope.
ghost use Rattle.std.specs.Prelude.{◌≡◌, ◌++◌, ◌∷◌, [], chars, encode_utf8, IfSome, IfNone, OnSome};
ghost use Rattle.tendril_text.specs.TextLists.{LosesFront};

use crate::rope::Rope;
use tendril_text::Atomicity;

impl<A: Atomicity> Rope<A> {
    /// Removes the first character and returns it, or returns `None` if the rope is empty. Takes amortized constant
    /// time, and allocates nothing.
    ///
    /// ```
    /// let mut rope = Rope::new(alloc);
    /// rope.push_tendril(StrTendril::from_slice(alloc, "éa")?)?;
    /// assert_eq!(rt; rope.pop_front_char(), Some('é'));
    /// assert_eq!(rt; rope.len64(), 1);
    /// ```
    pub fn pop_front_char(&mut self) -> Option<char>
        ensures character { IfSome result (λ c. chars self.old.bytes ≡ c ∷ chars self.new.bytes) }
        ensures bytes { IfSome result (λ c. self.old.bytes ≡ encode_utf8 c ++ self.new.bytes) }
        ensures pieces { OnSome result (LosesFront self.old.pieces self.new.pieces) }
        ensures none { IfNone result ((self.old.bytes ≡ []) × (self.new ≡ self.old)) }
    {
        if self.pieces.len() == 0 {
            return None;
        }
        let first = &mut self.pieces[0];
        let character = first.pop_front_char()?;
        let left = first.len32();
        let count = character.len_utf8() as u64;
        self.total -= count;
        self.start = self.start.wrapping_add(count);
        if left == 0 {
            self.ends.pop_front();
            self.pieces.pop_front();
        }
        Some(character)
    }
}
