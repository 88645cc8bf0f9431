//! UTF-8.

use crate::fmt::ascii_cuts::CutsAtAscii;
use crate::fmt::chars::{CharFormat, Encoded};
use crate::fmt::fixup::Fixup;
use crate::fmt::format::Format;
use crate::fmt::local::{first_four, last_four, utf8_ends};
use crate::fmt::subset::SubsetOf;
use crate::fmt::wtf8::WTF8;
use std::str;

/// UTF-8: the encodings of Unicode's scalar values, one after another (Unicode's table 3-7).
#[derive(Clone, Copy, Debug, Default)]
pub struct UTF8;

impl Format for UTF8 {
    ghost use Rattle.std.specs.Prelude.{◌++◌, IsUtf8};
    ghost use Rattle.std.proofs.lemmas.Str.{IsUtf8-append, IsUtf8-nil};
    ghost use Rattle.tendril_fmt.specs.Proved.Units.{AreBytes-from_utf8};

    ghost valid = { IsUtf8 };

    ghost join = { λ l r. l ++ r };

    ghost empty_valid = { IsUtf8-nil };

    ghost join_valid = { IsUtf8-append };

    ghost are_bytes = { AreBytes-from_utf8 };

    fn validate(bytes: &[u8]) -> bool {
        simdutf8::basic::from_utf8(bytes).is_ok()
    }

    fn validate_prefix(bytes: &[u8]) -> bool {
        utf8_ends(&[], last_four(bytes))
    }

    fn validate_suffix(bytes: &[u8]) -> bool {
        utf8_ends(first_four(bytes), &[])
    }

    fn validate_subseq(bytes: &[u8]) -> bool {
        utf8_ends(first_four(bytes), last_four(bytes))
    }

    fn fixup(_left: &[u8], _right: &[u8]) -> Fixup {
        Fixup::default()
    }
}

impl CharFormat for UTF8 {
    ghost use Rattle.std.specs.Prelude.{encode_utf8, chars};
    ghost use Rattle.std.specs.Char.{IsScalar};
    ghost use Rattle.std.proofs.lemmas.Str.{chars-nil, IsUtf8-encode};
    ghost use Rattle.tendril_fmt.specs.Proved.Characters.{encodings-chars, All-scalars, AreTextsOf-utf8};
    ghost use Rattle.tendril_fmt.specs.Proved.Characters.{encode_utf8-bounds};

    ghost chars = { chars };

    ghost encodes = { IsScalar };

    ghost encoding = { encode_utf8 };

    ghost empty_chars = { chars-nil };

    ghost chars_spell = { encodings-chars };

    ghost chars_encode = { All-scalars };

    ghost cut = { AreTextsOf-utf8 };

    ghost encoding_valid = { IsUtf8-encode };

    ghost encoding_len = { λ c _. encode_utf8-bounds c };

    fn first_char(bytes: &[u8]) -> Option<(char, usize)> {
        let first = *bytes.first()?;
        // Most text is ASCII, so its one test comes first.
        if first < 0x80 {
            return Some((first as char, 1));
        }
        let mut rest = unsafe { str::from_utf8_unchecked(bytes) }.char_indices();
        let (_, character) = rest.next()?;
        Some((character, rest.offset()))
    }

    fn encode_char(character: char) -> Option<Encoded> {
        let mut bytes = [0; 4];
        Some(Encoded::new(character.encode_utf8(&mut bytes).as_bytes()))
    }
}

impl CutsAtAscii for UTF8 {
    ghost use Rattle.std.specs.Prelude.{◌+◌};
    ghost use Rattle.std.proofs.lemmas.Str.{IsCharBoundary-before_ascii, IsCharBoundary-after_ascii, IsUtf8-take};
    ghost use Rattle.std.proofs.lemmas.Str.{IsUtf8-drop};

    ghost ascii_cut = { λ bytes n v l a. (
      IsUtf8-take bytes n v (IsCharBoundary-before_ascii bytes n l a),
      IsUtf8-drop bytes n v (IsCharBoundary-before_ascii bytes n l a),
    ) };

    ghost after_ascii = { λ bytes n v l a. IsUtf8-drop bytes (n + 1) v (IsCharBoundary-after_ascii bytes n v l a) };
}

impl SubsetOf<WTF8> for UTF8 {
    ghost use Rattle.tendril_fmt.specs.Proved.Units.{IsWtf8-from_utf8};

    ghost subset_valid = { IsWtf8-from_utf8 };
}
