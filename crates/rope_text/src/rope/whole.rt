//! Whole ropes, as one text.
ghost use Rattle.std.specs.Prelude.{◌≡◌, ◌≤◌, length, IfOk, IfErr, string_bytes};
ghost use Rattle.tendril_text.specs.Making.{MakesText};

use crate::rope::Rope;
use tendril_text::block::{INLINE_LEN, MAX_LEN, Refusal};
use tendril_text::fmt::UTF8;
use tendril_text::{Atomicity, StrTendril, Tendril};

impl<A: Atomicity> Rope<A> {
    /// Returns a text with a copy of the rope's bytes.
    ///
    /// Returns `TooLong` if there are more than 4294967295, else `Memory` if an allocation fails. Copies in one pass,
    /// and allocates only for more than 8 bytes.
    ///
    /// ```
    /// let mut rope = Rope::new(alloc);
    /// rope.push_tendril(StrTendril::from_slice(alloc, "one, ")?)?;
    /// rope.push_tendril(StrTendril::from_slice(alloc, "two")?)?;
    /// assert_eq!(rt; rope.to_tendril()?.as_str(), "one, two");
    /// ```
    pub fn to_tendril(&self) -> Result<Tendril<UTF8, A>, Refusal>
        ensures { MakesText self.now.bytes result }
    {
        if self.total > MAX_LEN as u64 {
            return Err(Refusal::TooLong);
        }
        if self.total <= INLINE_LEN as u64 {
            return self.to_short();
        }
        let string = self.to_string_value()?;
        Tendril::<UTF8, A>::from_string(*self.pieces.allocator(), string)
    }

    /// Returns a `String` with a copy of the rope's bytes, in one pass.
    ///
    /// Returns `Memory` if the allocation fails.
    ///
    /// ```
    /// let mut rope = Rope::new(alloc);
    /// rope.push_tendril(StrTendril::from_slice(alloc, "one")?)?;
    /// assert_eq!(rt; rope.to_string_value()?.as_str(), "one");
    /// ```
    pub fn to_string_value(&self) -> Result<String, Refusal>
        ensures bytes { IfOk result (λ s. string_bytes s ≡ self.now.bytes) }
        ensures refusal { IfErr result (λ r. r ≡ Refusal.Memory) }
    {
        let Ok(mut string) = String::with_capacity(*self.pieces.allocator(), self.total as usize)
        else {
            return Err(Refusal::Memory);
        };
        for index in 0..self.pieces.len() {
            if string.push_str(self.pieces[index].as_str()).is_err() {
                return Err(Refusal::Memory);
            }
        }
        Ok(string)
    }

    // Returns a text of at most 8 bytes, which is stored inline.
    fn to_short(&self) -> Result<Tendril<UTF8, A>, Refusal>
        requires { length self.now.bytes ≤ INLINE_LEN }
        ensures { MakesText self.now.bytes result }
    {
        let mut bytes = [0; INLINE_LEN];
        let mut at = 0;
        while (at as u64) < self.total {
            let rest = self.rest_at(at as u64);
            bytes[at..at + rest.len()].copy_from_slice(rest);
            at += rest.len();
        }
        Tendril::<UTF8, A>::from_byte_slice_without_validating(
            *self.pieces.allocator(),
            &bytes[..at],
        )
    }
}
