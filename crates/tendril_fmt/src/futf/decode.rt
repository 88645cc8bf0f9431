//! One code point from its bytes.
ghost use Rattle.std.specs.Prelude.{◌≡◌, ◌∷◌, [], ◌<◌, ◌↔◌, IsTrue, MatchOption};
ghost use Rattle.tendril_fmt.specs.CodePoints.{IsContinuation, sequence_len, IsMeaningOf, IsDecoded, EncodeNone};
ghost use Rattle.tendril_fmt.specs.CodePoints.{Encode, SplitsIntoNone, SplitsInto};
ghost use Rattle.tendril_fmt.specs.Units.{SplitsText};
ghost use Rattle.tendril_fmt.specs.Wtf8.{IsWtf8};

use crate::futf::Meaning;

pub(crate) fn is_continuation(byte: u8) -> bool
    ensures { IsTrue result ↔ IsContinuation byte }
{
    0x80 <= byte && byte < 0xC0
}

// How many bytes a sequence has that begins with `byte`, or 0 if none does.
pub(super) fn sequence_len_of(byte: u8) -> usize
    ensures { result ≡ sequence_len byte }
{
    match byte {
        0x00..0x80 => 1,
        0x80..0xC0 => 0,
        0xC0..0xE0 => 2,
        0xE0..0xF0 => 3,
        0xF0..0xF8 => 4,
        0xF8..=0xFF => 0,
    }
}

// The code point that two bytes encode.
fn code_point_2(a: u8, b: u8) -> Option<u32>
    ensures { IsDecoded (a ∷ b ∷ []) result }
{
    if a < 0xC2 || 0xE0 <= a || !is_continuation(b) {
        return None;
    }
    Some(((a as u32) - 0xC0) * 64 + ((b as u32) - 0x80))
}

// The code point that three bytes encode.
fn code_point_3(a: u8, b: u8, c: u8) -> Option<u32>
    ensures { IsDecoded (a ∷ b ∷ c ∷ []) result }
{
    if a < 0xE0 || 0xF0 <= a || !is_continuation(b) || !is_continuation(c) {
        return None;
    }
    let code = ((a as u32) - 0xE0) * 4096 + ((b as u32) - 0x80) * 64 + ((c as u32) - 0x80);
    if code < 0x800 {
        return None;
    }
    Some(code)
}

// The code point that four bytes encode.
fn code_point_4(a: u8, b: u8, c: u8, d: u8) -> Option<u32>
    ensures { IsDecoded (a ∷ b ∷ c ∷ d ∷ []) result }
{
    if a < 0xF0 || 0xF8 <= a || !is_continuation(b) || !is_continuation(c) || !is_continuation(d) {
        return None;
    }
    let code = ((a as u32) - 0xF0) * 262144
        + ((b as u32) - 0x80) * 4096
        + ((c as u32) - 0x80) * 64
        + ((d as u32) - 0x80);
    if code < 0x1_0000 || 0x11_0000 <= code {
        return None;
    }
    Some(code)
}

// The code point that the bytes encode.
fn code_point_of(bytes: &[u8]) -> Option<u32>
    ensures { IsDecoded bytes.now result }
{
    match *bytes {
        [a] if a < 0x80 => Some(a as u32),
        [a, b] => code_point_2(a, b),
        [a, b, c] => code_point_3(a, b, c),
        [a, b, c, d] => code_point_4(a, b, c, d),
        _ => None,
    }
}

// What a code point means.
fn meaning_of(code: u32) -> Meaning
    requires { code < 0x11_0000 }
    ensures { IsMeaningOf code result }
{
    match code {
        0xD800..0xDC00 => Meaning::LeadSurrogate((code - 0xD800) as u16),
        0xDC00..0xE000 => Meaning::TrailSurrogate((code - 0xDC00) as u16),
        _ => Meaning::Whole(char::from_u32(code).unwrap()),
    }
}

/// What the bytes mean, if they encode exactly one code point.
#[inline(always)]
pub(crate) fn decode(bytes: &[u8]) -> Option<Meaning>
    ensures { MatchOption result (EncodeNone bytes.now) (Encode bytes.now) }
{
    Some(meaning_of(code_point_of(bytes)?))
}

/// Splits off the first code point: what it means, and the bytes after it.
pub(crate) fn split_code_point(bytes: &[u8]) -> Option<(Meaning, &[u8])>
    ensures { MatchOption result (SplitsIntoNone bytes.now) (λ p. SplitsInto bytes.now p.0 p.1.now) }
{
    let len = sequence_len_of(*bytes.first()?);
    if bytes.len() < len {
        return None;
    }
    let (front, rest) = bytes.split_at(len);
    Some((decode(front)?, rest))
}

/// Splits off the first code point of valid WTF-8: the code point, and the bytes after it. Doesn't validate them again.
#[inline]
pub(crate) fn split_text(bytes: &[u8]) -> Option<(u32, &[u8])>
    requires { IsWtf8 bytes.now }
    ensures { MatchOption result (bytes.now ≡ []) (λ p. SplitsText bytes.now p.0 p.1.now) }
{
    if bytes.is_empty() {
        return None;
    }
    let first = bytes[0] as u32;
    if first < 0x80 {
        return Some((first, &bytes[1..]));
    }
    // A remainder keeps the bits that belong to the code point. It is less than a power of two, so the compiler knows
    // that a code point of two or three bytes is less than 0x1_0000.
    let second = bytes[1] as u32 % 0x40;
    if first < 0xE0 {
        return Some((first % 0x20 * 0x40 + second, &bytes[2..]));
    }
    let third = bytes[2] as u32 % 0x40;
    if first < 0xF0 {
        return Some((first % 0x10 * 0x1000 + second * 0x40 + third, &bytes[3..]));
    }
    let fourth = bytes[3] as u32 % 0x40;
    let code = first % 0x08 * 0x4_0000 + second * 0x1000 + third * 0x40 + fourth;
    Some((code, &bytes[4..]))
}
