//! Prefixes of a text, each with the bytes that end it; white space at the ends; prefixes that are given.
ghost use Rattle.std.specs.Prelude.{◌≡◌, ◌<◌, ◌≤◌, ◌+◌, ◌↔◌, ◌++◌, ◌∷◌, length, take, drop, IsUtf8, IsTrue};
ghost use Rattle.memchr.specs.Find.{is_byte};
ghost use Rattle.tendril_fmt.specs.Cuts.{IsTrimOf};
ghost use Rattle.tendril_fmt.specs.Parts.{IsFrontOf};
ghost use Rattle.tendril_fmt.specs.Sets.{has_byte, EndsBefore};

use crate::cuts::byte_set::ByteSet;
use crate::fmt::CutsAtAscii;
use memchr::memchr;

/// The length of a prefix, and of the ending that follows it.
#[derive(Clone, Copy)]
pub struct Piece {
    /// The prefix's length in bytes.
    pub len: usize,
    /// The length of what ends it: a separator or a line ending. 0 if the text ends it.
    pub ending: usize,
}

/// Returns the length of the prefix before the first byte of the set, with an ending of 1 byte; or of all bytes,
/// without an ending.
///
/// ```
/// let piece = first_part::<UTF8>(b"a,b", &ByteSet::new(b","));
/// assert_eq!(rt; (piece.len, piece.ending), (1, 1));
/// ```
pub fn first_part<F: CutsAtAscii>(bytes: &[u8], set: &ByteSet) -> Piece
    requires valid { F.valid bytes.now }
    ensures ends { EndsBefore (has_byte set.now) bytes.now result.len }
    ensures ended { result.len < length bytes.now → result.ending ≡ 1 }
    ensures last { result.len ≡ length bytes.now → result.ending ≡ 0 }
    ensures front_valid { F.valid (take result.len bytes.now) }
    ensures cut_valid { F.valid (drop result.len bytes.now) }
    ensures rest_valid { F.valid (drop (result.len + result.ending) bytes.now) }
{
    match set.find_in(bytes) {
        Some(at) => Piece { len: at, ending: 1 },
        None => Piece {
            len: bytes.len(),
            ending: 0,
        },
    }
}

/// Returns the length of the prefix before the first such byte, with an ending of 1 byte; or of all bytes, without an
/// ending.
pub fn first_field<F: CutsAtAscii>(bytes: &[u8], byte: u8) -> Piece
    requires ascii { byte < 128 }
    requires valid { F.valid bytes.now }
    ensures ends { EndsBefore (is_byte byte) bytes.now result.len }
    ensures ended { result.len < length bytes.now → result.ending ≡ 1 }
    ensures last { result.len ≡ length bytes.now → result.ending ≡ 0 }
    ensures joined { 0 < result.ending →
        bytes.now ≡ take result.len bytes.now ++ byte ∷ drop (result.len + result.ending) bytes.now }
    ensures within { result.len + result.ending ≤ length bytes.now }
    ensures front_valid { F.valid (take result.len bytes.now) }
    ensures cut_valid { F.valid (drop result.len bytes.now) }
    ensures rest_valid { F.valid (drop (result.len + result.ending) bytes.now) }
{
    match memchr(byte, bytes) {
        Some(at) => Piece { len: at, ending: 1 },
        None => Piece {
            len: bytes.len(),
            ending: 0,
        },
    }
}

/// Where the bytes without the ASCII white space at both ends begin, and how many they are.
pub fn trimmed_range<F: CutsAtAscii>(bytes: &[u8]) -> (usize, usize)
    requires valid { F.valid bytes.now }
    ensures within { result.0 + result.1 ≤ length bytes.now }
    ensures count { length (take result.1 (drop result.0 bytes.now)) ≡ result.1 }
    ensures trim { IsTrimOf bytes.now (take result.1 (drop result.0 bytes.now)) }
    ensures still_valid { F.valid (take result.1 (drop result.0 bytes.now)) }
{
    let rest = bytes.trim_ascii_start();
    let kept = rest.trim_ascii_end();
    (bytes.len() - rest.len(), kept.len())
}

/// Whether a text begins with the prefix. If it does, the remainder is valid too.
pub fn begins_with(bytes: &[u8], prefix: &str) -> bool
    requires { IsUtf8 bytes.now }
    ensures begins { IsTrue result ↔ IsFrontOf prefix.now bytes.now }
    ensures bytes { IsTrue result → bytes.now ≡ prefix.now ++ drop (length prefix.now) bytes.now }
    ensures valid { IsTrue result → IsUtf8 (drop (length prefix.now) bytes.now) }
    ensures within { IsTrue result → length prefix.now ≤ length bytes.now }
{
    bytes.starts_with(prefix.as_bytes())
}
