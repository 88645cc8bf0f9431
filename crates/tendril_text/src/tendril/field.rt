//! Splitting a text at the first occurrence of a byte.
ghost use Rattle.std.specs.Prelude.{◌≡◌, ◌<◌, ◌++◌, ◌∷◌, [], IfOk, IfErr, IfSome, IfNone, OnErr, IsTrue, IsFalse};
ghost use Rattle.std.specs.Str.Iter.{LacksByte};
ghost use Rattle.memchr.specs.Find.{is_byte};
ghost use Rattle.tendril_storage.specs.Texts.{SplitCost, ShareCost};
ghost use Rattle.tendril_text.specs.Search.{HasLongPartBefore};
ghost use Rattle.tendril_text.specs.Splits.{HasLongSide};

use crate::tendril::Tendril;
use std::fmt::{self, Debug, Formatter, Write};
use tendril_block::{Atomicity, NonAtomic, Refusal};
use tendril_fmt::cuts::first_field;
use tendril_fmt::fmt::{CutsAtAscii, Format};

/// What `pop_field` removed from the start of a text.
#[derive(Drop)]
pub struct Field<F: Format, A: Atomicity = NonAtomic> {
    /// The bytes before the separator; maybe none.
    pub text: Tendril<F, A>,
    /// Whether no separator followed, so that nothing is left.
    pub is_last: bool,
}

impl<F: Format, A: Atomicity> Debug for Field<F, A>
where
    Tendril<F, A>: Debug,
{
    fn fmt<W: Write>(&self, f: &mut Formatter<W>) -> fmt::Result {
        f.debug_struct("Field")
            .field("text", &self.text)
            .field("is_last", &self.is_last)
            .finish()
    }
}

impl<F: CutsAtAscii, A: Atomicity> Tendril<F, A> {
    /// Removes the bytes before the first `byte`, a separator in ASCII, and the separator too, and returns the bytes
    /// before it. If there is none, the field is the whole text, `is_last` is true, and the text is empty then.
    ///
    /// The last field may be empty, so the text's end doesn't tell it: "a,b," has the fields "a", "b" and "", and an
    /// empty text has one.
    ///
    /// Returns `Count` if the field has more than 8 bytes, more than 8 bytes with the separator follow it, and the
    /// block has as many references as it can have; then nothing has changed. Takes one pass up to the separator, by
    /// `memchr`. Allocates nothing: sides of more than 8 bytes keep sharing the block.
    ///
    /// ```
    /// let mut request = StrTendril::from_slice(alloc, "GET /index.html")?;
    /// let method = request.pop_field(b' ')?;
    /// assert_eq!(rt; method.text.as_str(), "GET");
    /// let path = request.pop_field(b' ')?;
    /// assert_eq!(rt; path.text.as_str(), "/index.html");
    /// assert_eq!(rt; (method.is_last, path.is_last), (false, true));
    /// ```
    pub fn pop_field(&mut self, byte: u8) -> Result<Field<F, A>, Refusal>
        requires ascii { byte < 128 }
        ensures first { IfOk result (λ field. LacksByte byte field.text.bytes) }
        ensures joined { IfOk result (λ field.
            IsFalse field.is_last → self.old.bytes ≡ field.text.bytes ++ byte ∷ self.new.bytes) }
        ensures last { IfOk result (λ field.
            IsTrue field.is_last → (self.old.bytes ≡ field.text.bytes) × (self.new.bytes ≡ [])) }
        ensures copied { IfOk result (λ field. SplitCost self.old field.text self.new) }
        ensures refusal { IfErr result (HasLongPartBefore (is_byte byte) self.old.bytes) }
        ensures err { OnErr result (self.new ≡ self.old) }
    {
        let piece = first_field::<F>(self.as_byte_slice(), byte);
        let text = self.take_piece(piece)?;
        Ok(Field {
            text,
            is_last: piece.ending == 0,
        })
    }

    /// Returns the bytes before the first `byte`, a separator in ASCII, and those after it, or `None` if there is none.
    ///
    /// Returns `Count` if a side has more than 8 bytes and the block as many references as it can have. Takes one pass
    /// up to the separator, by `memchr`. Allocates nothing: sides of more than 8 bytes share the block.
    ///
    /// `str::split_once` takes a character, a string or a closure: `text.as_str().split_once("=>")`.
    ///
    /// ```
    /// let text = StrTendril::from_slice(alloc, "key=value=x")?;
    /// let sides = text.split_once(b'=')?;
    /// assert_eq!(rt; sides.is_some_and(|(key, value)| key.eq_str("key") && value.eq_str("value=x")), true);
    /// assert_eq!(rt; text.split_once(b':')?.is_none(), true);
    /// ```
    pub fn split_once(&self, byte: u8) -> Result<Option<(Self, Self)>, Refusal>
        requires ascii { byte < 128 }
        ensures first { IfOk result (λ found. IfSome found (λ sides. LacksByte byte sides.0.bytes)) }
        ensures joined { IfOk result (λ found. IfSome found (λ sides.
            self.now.bytes ≡ sides.0.bytes ++ byte ∷ sides.1.bytes)) }
        ensures none { IfOk result (λ found. IfNone found (LacksByte byte self.now.bytes)) }
        ensures copied { IfOk result (λ found. IfSome found (λ sides. ShareCost sides.0 × ShareCost sides.1)) }
        ensures refusal { IfErr result (HasLongSide byte self.now.bytes) }
    {
        let piece = first_field::<F>(self.as_byte_slice(), byte);
        if piece.ending == 0 {
            return Ok(None);
        }
        let len = piece.len as u32;
        let next = len + piece.ending as u32;
        let front = self.subtendril(0, len)?;
        let back = self.subtendril(next, self.len32() - next)?;
        Ok(Some((front, back)))
    }
}
