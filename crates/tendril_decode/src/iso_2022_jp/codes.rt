//! The characters and escape sequences of ISO-2022-JP.
ghost use Rattle.std.specs.Prelude.{◌≡◌, ◌<◌, IfSome, true};
ghost use Rattle.std.specs.Char.{IsScalar};
ghost use Rattle.tendril_decode.specs.Iso2022Jp.{ascii_code, escaped, is_escape_second, is_jis, jis_code, single_code};

use crate::indexes::jis0208_at;
use crate::iso_2022_jp::Set;
use crate::two_bytes::in_range;

// Whether a byte is the second one of an escape sequence.
pub(super) fn is_escape_second(byte: u8) -> bool
    ensures { result ≡ is_escape_second byte }
{
    byte == 0x24 || byte == 0x28
}

// The set that an escape sequence selects by its second and third byte.
pub(super) fn escaped(second: u8, third: u8) -> Option<Set>
    requires { is_escape_second second ≡ true }
    ensures { result ≡ escaped second third }
{
    match (second, third) {
        (0x28, 0x42) => Some(Set::Ascii),
        (0x28, 0x4A) => Some(Set::Roman),
        (0x28, 0x49) => Some(Set::Katakana),
        (0x24, 0x40 | 0x42) => Some(Set::Jis0208),
        _ => None,
    }
}

// Whether a byte is one of a character of two bytes.
#[inline(always)]
pub(super) fn is_jis(byte: u8) -> bool
    ensures { result ≡ is_jis byte }
{
    in_range(0x21, 0x7E, byte)
}

// The character of two bytes, or 0.
#[inline(always)]
pub(super) fn jis_code(lead: u8, trail: u8) -> u32
    requires { is_jis lead ≡ true }
    ensures value { result ≡ jis_code lead trail }
    ensures scalar { IsScalar result }
    ensures small { result < 0x1_0000 }
{
    if !is_jis(trail) {
        return 0;
    }
    jis0208_at((lead as usize - 0x21) * 94 + (trail as usize - 0x21))
}

// The character of a byte in a set.
#[inline(always)]
pub(super) fn single_code(set: Set, byte: u8) -> Option<u16>
    ensures value { result ≡ single_code set byte }
    ensures scalar { IfSome result (λ c. IsScalar c) }
{
    match set {
        Set::Ascii => ascii_code(byte),
        Set::Roman => match byte {
            0x5C => Some(0xA5),
            0x7E => Some(0x203E),
            _ => ascii_code(byte),
        },
        Set::Katakana if in_range(0x21, 0x5F, byte) => Some(0xFF61 + (byte as u16 - 0x21)),
        _ => None,
    }
}

// The character of a byte in ASCII. The bytes that once shifted between sets are errors.
#[inline(always)]
fn ascii_code(byte: u8) -> Option<u16>
    ensures value { result ≡ ascii_code byte }
    ensures scalar { IfSome result (λ c. IsScalar c) }
{
    if byte >= 0x80 || byte == 0x0E || byte == 0x0F {
        None
    } else {
        Some(byte as u16)
    }
}
