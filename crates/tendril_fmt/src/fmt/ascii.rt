//! ASCII.

use crate::fmt::ascii_cuts::CutsAtAscii;
use crate::fmt::chars::{CharFormat, Encoded};
use crate::fmt::fixup::Fixup;
use crate::fmt::format::Format;
use crate::fmt::latin1::Latin1;
use crate::fmt::subset::SubsetOf;
use crate::fmt::utf8::UTF8;

/// ASCII: each byte is at most 7F, so every slice of a text is a text.
#[derive(Clone, Copy, Debug, Default)]
pub struct ASCII;

impl Format for ASCII {
    ghost use Rattle.std.specs.Prelude.{◌++◌, IsAscii};
    ghost use Rattle.std.proofs.lemmas.Str.{IsAscii-append};
    ghost use Rattle.std.proofs.lemmas.Str.Ascii.{IsAscii-nil};
    ghost use Rattle.tendril_fmt.specs.Proved.Bytes.{AreBytes-from_ascii};

    ghost valid = { IsAscii };

    ghost join = { λ l r. l ++ r };

    ghost empty_valid = { IsAscii-nil };

    ghost join_valid = { IsAscii-append };

    ghost are_bytes = { AreBytes-from_ascii };

    fn validate(bytes: &[u8]) -> bool {
        bytes.is_ascii()
    }

    fn validate_prefix(_bytes: &[u8]) -> bool {
        true
    }

    fn validate_suffix(_bytes: &[u8]) -> bool {
        true
    }

    fn validate_subseq(_bytes: &[u8]) -> bool {
        true
    }

    fn fixup(_left: &[u8], _right: &[u8]) -> Fixup {
        Fixup::default()
    }
}

impl CharFormat for ASCII {
    ghost use Rattle.std.specs.Prelude.{◌<◌, refl};
    ghost use Rattle.std.proofs.Common.{lit≤, sym};
    ghost use Rattle.std.proofs.lemmas.Str.Ascii.{All-from_ascii};
    ghost use Rattle.tendril_fmt.specs.Chars.{one_byte};
    ghost use Rattle.tendril_fmt.specs.Proved.Characters.{encodings-one_byte, AreTextsOf-ascii, IsAscii-one_byte};

    ghost chars = { λ bytes. bytes };

    ghost encodes = { λ c. c < 128 };

    ghost encoding = { one_byte };

    ghost empty_chars = { refl };

    ghost chars_spell = { λ bytes _. sym (encodings-one_byte bytes) };

    ghost chars_encode = { All-from_ascii };

    ghost cut = { AreTextsOf-ascii };

    ghost encoding_valid = { IsAscii-one_byte };

    ghost encoding_len = { λ _ _. (lit≤ tt, lit≤ tt) };

    fn first_char(bytes: &[u8]) -> Option<(char, usize)> {
        let first = *bytes.first()?;
        Some((first as char, 1))
    }

    fn encode_char(character: char) -> Option<Encoded> {
        if character.is_ascii() {
            Some(Encoded::new(&[character as u8]))
        } else {
            None
        }
    }
}

impl CutsAtAscii for ASCII {
    ghost use Rattle.std.specs.Prelude.{◌+◌};
    ghost use Rattle.std.proofs.lemmas.Str.{IsAscii-take, IsAscii-drop};

    ghost ascii_cut = { λ bytes n v _ _. (IsAscii-take bytes n v, IsAscii-drop bytes n v) };

    ghost after_ascii = { λ bytes n v _ _. IsAscii-drop bytes (n + 1) v };
}

impl SubsetOf<UTF8> for ASCII {
    ghost use Rattle.std.proofs.lemmas.Str.{IsUtf8-from_ascii};

    ghost subset_valid = { IsUtf8-from_ascii };
}

impl SubsetOf<Latin1> for ASCII {
    ghost use Rattle.tendril_fmt.specs.Proved.Bytes.{AreBytes-from_ascii};

    ghost subset_valid = { AreBytes-from_ascii };
}
