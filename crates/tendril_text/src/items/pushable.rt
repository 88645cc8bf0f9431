//! Items that can be appended to a text.

use crate::tendril::Tendril;
use std::slice;
use tendril_block::{Atomicity, MAX_LEN, Refusal};
use tendril_fmt::fmt::{Bytes, Format, UTF8};

/// An item that is appended to a text of the format `F` as a whole.
pub(crate) trait Pushable<F: Format, A: Atomicity>: Drop {
    ghost use Rattle.std.specs.Prelude.{ℕ, List};
    ghost use Rattle.tendril_text.specs.Pushes.{Joins};

    /// The bytes of the item.
    ghost bytes: { Self → List ℕ };

    /// Appends the bytes by the format's join.
    fn push_to(self, text: &mut Tendril<F, A>) -> Result<(), Refusal>
        ensures { Joins F.join (bytes self) text.old result text.new };
}

impl<A: Atomicity> Pushable<UTF8, A> for char {
    ghost use Rattle.std.specs.Prelude.{encode_utf8};

    ghost bytes = { encode_utf8 };

    fn push_to(self, text: &mut Tendril<UTF8, A>) -> Result<(), Refusal> {
        text.push_char(self)
    }
}

impl<'a, A: Atomicity> Pushable<UTF8, A> for &'a str {
    ghost bytes = { λ s. s.now };

    fn push_to(self, text: &mut Tendril<UTF8, A>) -> Result<(), Refusal> {
        text.push_slice(self)
    }
}

impl<A: Atomicity> Pushable<Bytes, A> for u8 {
    ghost use Rattle.tendril_fmt.specs.Chars.{one_byte};

    ghost bytes = { one_byte };

    fn push_to(self, text: &mut Tendril<Bytes, A>) -> Result<(), Refusal> {
        text.push_slice(&[self])
    }
}

impl<'a, A: Atomicity> Pushable<Bytes, A> for &'a u8 {
    ghost use Rattle.tendril_fmt.specs.Chars.{one_byte};

    ghost bytes = { λ b. one_byte b.now };

    fn push_to(self, text: &mut Tendril<Bytes, A>) -> Result<(), Refusal> {
        text.push_slice(slice::from_ref(self))
    }
}

impl<'a, A: Atomicity> Pushable<Bytes, A> for &'a [u8] {
    ghost bytes = { λ s. s.now };

    fn push_to(self, text: &mut Tendril<Bytes, A>) -> Result<(), Refusal> {
        text.push_slice(self)
    }
}

impl<'a, F: Format + 'a, A: Atomicity + 'a> Pushable<F, A> for &'a Tendril<F, A> {
    ghost bytes = { λ t. t.now.bytes };

    fn push_to(self, text: &mut Tendril<F, A>) -> Result<(), Refusal> {
        text.push_tendril(self)
    }
}
