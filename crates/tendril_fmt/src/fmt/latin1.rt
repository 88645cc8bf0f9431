//! Latin-1: one byte per character.

use crate::fmt::ascii_cuts::CutsAtAscii;
use crate::fmt::chars::{CharFormat, Encoded};
use crate::fmt::fixup::Fixup;
use crate::fmt::format::Format;

/// The first 256 characters of Unicode, one byte each. Any bytes are valid.
///
/// This is IANA's ISO-8859-1, with the control characters of ISO 6429. What the web's Encoding Standard calls by that
/// name is another encoding, Windows-1252.
#[derive(Clone, Copy, Debug, Default)]
pub struct Latin1;

impl Format for Latin1 {
    ghost use Rattle.std.specs.Prelude.{◌++◌};
    ghost use Rattle.tendril_fmt.specs.Bytes.{AreBytes};
    ghost use Rattle.tendril_fmt.specs.Proved.Bytes.{AreBytes-nil, AreBytes-append};

    ghost valid = { AreBytes };

    ghost join = { λ l r. l ++ r };

    ghost empty_valid = { AreBytes-nil };

    ghost join_valid = { AreBytes-append };

    ghost are_bytes = { λ _ v. v };

    fn validate(_bytes: &[u8]) -> bool {
        true
    }

    fn fixup(_left: &[u8], _right: &[u8]) -> Fixup {
        Fixup::default()
    }
}

impl CharFormat for Latin1 {
    ghost use Rattle.std.specs.Prelude.{◌<◌, refl};
    ghost use Rattle.std.proofs.Common.{lit≤, sym};
    ghost use Rattle.tendril_fmt.specs.Chars.{one_byte};
    ghost use Rattle.tendril_fmt.specs.Proved.Bytes.{All-from_bytes};
    ghost use Rattle.tendril_fmt.specs.Proved.Characters.{encodings-one_byte, AreTextsOf-latin1, AreBytes-one_byte};

    ghost chars = { λ bytes. bytes };

    ghost encodes = { λ c. c < 256 };

    ghost encoding = { one_byte };

    ghost empty_chars = { refl };

    ghost chars_spell = { λ bytes _. sym (encodings-one_byte bytes) };

    ghost chars_encode = { All-from_bytes };

    ghost cut = { AreTextsOf-latin1 };

    ghost encoding_valid = { AreBytes-one_byte };

    ghost encoding_len = { λ _ _. (lit≤ tt, lit≤ tt) };

    fn first_char(bytes: &[u8]) -> Option<(char, usize)> {
        let first = *bytes.first()?;
        Some((first as char, 1))
    }

    fn encode_char(character: char) -> Option<Encoded> {
        let code = character as u32;
        if code < 0x100 {
            Some(Encoded::new(&[code as u8]))
        } else {
            None
        }
    }
}

impl CutsAtAscii for Latin1 {
    ghost use Rattle.std.specs.Prelude.{◌+◌};
    ghost use Rattle.tendril_fmt.specs.Proved.Bytes.{AreBytes-take, AreBytes-drop};

    ghost ascii_cut = { λ bytes n v _ _. (AreBytes-take bytes n v, AreBytes-drop bytes n v) };

    ghost after_ascii = { λ bytes n v _ _. AreBytes-drop bytes (n + 1) v };
}
