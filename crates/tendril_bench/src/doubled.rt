//! A format of your own, whose texts are characters.

use tendril::fmt::{CharFormat, Encoded, Fixup, Format};

/// The format of ASCII with each byte twice.
#[derive(Clone, Copy, Debug, Default)]
pub struct Doubled;

impl Format for Doubled {
    ghost use Rattle.std.specs.Prelude.{◌++◌};
    ghost use Rattle.tendril_bench.specs.Doubled.{IsDoubled, IsDoubled-nil, IsDoubled-append, AreBytes-doubled};

    ghost valid = { IsDoubled };

    ghost join = { λ l r. l ++ r };

    ghost empty_valid = { IsDoubled-nil };

    ghost join_valid = { IsDoubled-append };

    ghost are_bytes = { AreBytes-doubled };

    fn validate(bytes: &[u8]) -> bool {
        let mut rest = bytes;
        while let [first, second, after @ ..] = rest {
            if *first != *second || *first >= 0x80 {
                return false;
            }
            rest = after;
        }
        rest.is_empty()
    }

    fn fixup(_left: &[u8], _right: &[u8]) -> Fixup {
        Fixup::default()
    }
}

impl CharFormat for Doubled {
    ghost use Rattle.std.specs.Prelude.{◌<◌, refl};
    ghost use Rattle.std.proofs.Common.{lit≤};
    ghost use Rattle.tendril_bench.specs.Doubled.{twice, firsts, firsts-spell, All-doubled, AreTextsOf-doubled};
    ghost use Rattle.tendril_bench.specs.Doubled.{IsDoubled-twice};

    ghost chars = { firsts };

    ghost encodes = { λ c. c < 128 };

    ghost encoding = { twice };

    ghost empty_chars = { refl };

    ghost chars_spell = { firsts-spell };

    ghost chars_encode = { All-doubled };

    ghost cut = { AreTextsOf-doubled };

    ghost encoding_valid = { IsDoubled-twice };

    ghost encoding_len = { λ _ _. (lit≤ tt, lit≤ tt) };

    fn first_char(bytes: &[u8]) -> Option<(char, usize)> {
        let first = *bytes.first()?;
        Some((first as char, 2))
    }

    fn encode_char(character: char) -> Option<Encoded> {
        if character.is_ascii() {
            let byte = character as u8;
            Some(Encoded::new(&[byte, byte]))
        } else {
            None
        }
    }
}
