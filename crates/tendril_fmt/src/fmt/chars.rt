//! The formats whose texts are characters.

use crate::fmt::format::Format;
use std::marker::Model;

/// The encoding of one character: four bytes, and how many of them are used.
///
/// Contracts see the list of the used bytes.
#[derive(Clone, Copy, Debug)]
pub struct Encoded {
    // The unused bytes are zeros.
    bytes: [u8; 4],
    len: u8,
}

impl Model for Encoded {
    ghost use Rattle.std.specs.Prelude.{ℕ, List, length, take};
    ghost use Rattle.std.proofs.Common.{ap₂};
    ghost use Rattle.tendril_fmt.specs.Chars.{ArePadded, padded};
    ghost use Rattle.tendril_fmt.specs.Proved.Characters.{padded-meant, length-meant};

    ghost Value = { List ℕ };

    ghost view = { λ e. take e.len e.bytes };

    ghost invariant = { λ e. ArePadded e.bytes e.len };

    // The list determines the fields, as `Copy` requires. So the unused bytes have a fixed value.
    ghost inverse = { λ list. record { bytes = padded list; len = length list } };

    ghost inverse_ok = { λ e h. ap₂ (λ b n. record { bytes = b; len = n })
        (padded-meant e.bytes e.len h) (length-meant e.bytes e.len h) };
}

impl Encoded {
    ghost use Rattle.std.specs.Prelude.{◌≡◌, ◌≤◌, length};

    /// The encoding with these bytes.
    pub fn new(bytes: &[u8]) -> Self
        requires { length bytes.now ≤ 4 }
        ensures { result ≡ bytes.now }
    {
        let len = bytes.len() as u8;
        let bytes = match *bytes {
            [] => [0, 0, 0, 0],
            [a] => [a, 0, 0, 0],
            [a, b] => [a, b, 0, 0],
            [a, b, c] => [a, b, c, 0],
            [a, b, c, d, ..] => [a, b, c, d],
        };
        Encoded { bytes, len }
    }

    /// The bytes that are used.
    pub fn as_slice(&self) -> &[u8]
        ensures bytes { result.now ≡ self.now }
        ensures len { length result.now ≤ 4 }
    {
        &self.bytes[..self.len as usize]
    }
}

/// A format whose texts are characters, each with an encoding of one to four bytes.
///
/// `Bytes` and `WTF8` aren't: bytes have no characters of their own, and a lone surrogate is not a character.
pub trait CharFormat: Format {
    ghost use Rattle.std.specs.Prelude.{◌≡◌, ◌≤◌, ℕ, List, [], ◌++◌, length, All, IfSome, IfNone};
    ghost use Rattle.tendril_fmt.specs.Chars.{encodings, IsFirstChar, AreTextsOf};

    /// The characters of valid bytes, in order.
    ghost chars: { List ℕ → List ℕ };

    /// The characters that have an encoding.
    ghost encodes: { ℕ → Type 0 };

    /// The bytes of a character that has an encoding.
    ghost encoding: { ℕ → List ℕ };

    /// The first character of valid bytes, and how many bytes its encoding has; `None` if there are no bytes. In the
    /// formats here it takes constant time, for an ASCII character a load and a test.
    fn first_char(bytes: &[u8]) -> Option<(char, usize)>
        requires { Self.valid bytes.now }
        ensures first { IfSome result (λ found.
            IsFirstChar Self.valid chars encodes encoding bytes.now found.0 found.1) }
        ensures none { IfNone result (bytes.now ≡ []) };

    /// The encoding of a character, or `None` if the format can't represent it. Allocates nothing.
    fn encode_char(character: char) -> Option<Encoded>
        ensures encoded { IfSome result (λ found. encodes character × (found ≡ encoding character)) }
        ensures none { IfNone result (¬ (encodes character)) };

    /// The empty text has no characters.
    ghost empty_chars: { chars [] ≡ [] };

    /// A text is the encodings of its characters, one after another.
    ghost chars_spell: { (bytes : List ℕ) → Self.valid bytes → bytes ≡ encodings encoding (chars bytes) };

    /// Each character of a text has an encoding.
    ghost chars_encode: { (bytes : List ℕ) → Self.valid bytes → All encodes (chars bytes) };

    /// A text may be cut between any two of its characters: each side is a text of its own characters.
    ghost cut: { (bytes cs ds : List ℕ) → Self.valid bytes → chars bytes ≡ cs ++ ds
        → AreTextsOf Self.valid chars encoding cs ds };

    /// An encoding is a text.
    ghost encoding_valid: { (c : ℕ) → encodes c → Self.valid (encoding c) };

    /// An encoding has one to four bytes.
    ghost encoding_len: { (c : ℕ) → encodes c → (1 ≤ length (encoding c)) × (length (encoding c) ≤ 4) };
}
