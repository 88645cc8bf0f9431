//! The characters of a text, each with its offset.
ghost use Rattle.std.specs.Prelude.{◌≡◌, encode_utf8, chars, IsUtf8};
ghost use Rattle.std.specs.Iterator.{YieldsFirst, item_count};
ghost use Rattle.tendril_fmt.specs.Chars.{one_byte, places_from};

use std::iter::{Enumerate, FusedIterator};
use std::marker::Model;
use std::{slice, str};

/// The characters of ASCII or Latin-1, where each byte is the character of that number, each with its offset.
///
/// Contracts see the list of the remaining pairs. Accepts any bytes.
#[derive(Drop)]
pub struct SingleByteCharIndices<'a> {
    bytes: Enumerate<slice::Iter<'a, u8>>,
}

impl<'a> Model for SingleByteCharIndices<'a> {
    ghost use Rattle.std.specs.Prelude.{◌+◌, ◌^◌, ◌<◌, ℕ, List, length};
    ghost use Rattle.std.specs.Iterator.Adapters.{enumerate_source, enumerate_count};
    ghost use Rattle.std.specs.Slice.Iter.{iter_rest};
    ghost use Rattle.tendril_fmt.specs.Chars.{one_byte, places_from};

    ghost Value = { List (ℕ × ℕ) };

    ghost view = { λ it. places_from one_byte (enumerate_count it.bytes) (iter_rest (enumerate_source it.bytes)) };

    ghost invariant = { λ it. enumerate_count it.bytes + length (iter_rest (enumerate_source it.bytes)) < 2 ^ 64 };
}

impl<'a> SingleByteCharIndices<'a> {
    /// All characters of the bytes.
    pub fn new(bytes: &'a [u8]) -> Self
        ensures { result ≡ places_from one_byte 0 bytes.now }
    {
        SingleByteCharIndices {
            bytes: bytes.iter().enumerate(),
        }
    }
}

impl<'a> Iterator for SingleByteCharIndices<'a> {
    type Item = (usize, char);

    ghost next_gives = { YieldsFirst (λ rest. rest) };

    ghost remaining = { item_count (λ rest. rest) };

    fn next(&mut self) -> Option<(usize, char)> {
        let (place, byte) = self.bytes.next()?;
        Some((place, *byte as char))
    }
}

impl<'a> FusedIterator for SingleByteCharIndices<'a> {}

/// The characters of UTF-8, each with the offset of its first byte.
///
/// Contracts see the list of the remaining pairs. This is std's `str::char_indices`, over bytes that are known to be
/// UTF-8 and are not validated again.
#[derive(Drop)]
pub struct Utf8CharIndices<'a> {
    characters: str::CharIndices<'a>,
}

impl<'a> Model for Utf8CharIndices<'a> {
    ghost use Rattle.std.specs.Prelude.{ℕ, List, encode_utf8, chars};
    ghost use Rattle.std.specs.Str.Iter.{char_indices_rest, char_indices_offset};
    ghost use Rattle.tendril_fmt.specs.Chars.{places_from, IsAtUtf8};

    ghost Value = { List (ℕ × ℕ) };

    ghost view = { λ it. places_from encode_utf8 (char_indices_offset it.characters)
        (chars (char_indices_rest it.characters)) };

    ghost invariant = { λ it. IsAtUtf8 (char_indices_offset it.characters) (char_indices_rest it.characters) };
}

impl<'a> Utf8CharIndices<'a> {
    /// All characters of the bytes. Reads none of them yet.
    pub fn new(bytes: &'a [u8]) -> Self
        requires { IsUtf8 bytes.now }
        ensures { result ≡ places_from encode_utf8 0 (chars bytes.now) }
    {
        Utf8CharIndices {
            characters: unsafe { str::from_utf8_unchecked(bytes) }.char_indices(),
        }
    }
}

impl<'a> Iterator for Utf8CharIndices<'a> {
    type Item = (usize, char);

    ghost next_gives = { YieldsFirst (λ rest. rest) };

    ghost remaining = { item_count (λ rest. rest) };

    fn next(&mut self) -> Option<(usize, char)> {
        self.characters.next()
    }
}

impl<'a> FusedIterator for Utf8CharIndices<'a> {}
