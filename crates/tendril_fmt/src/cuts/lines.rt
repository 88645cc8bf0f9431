//! Lines, and the line endings after them.
ghost use Rattle.std.specs.Prelude.{◌≡◌, ◌≤◌, ◌<◌, ◌+◌, ◌-◌, ◌↔◌, length, take, drop, slice_index, IsTrue};
ghost use Rattle.tendril_fmt.specs.Cuts.{IsWithoutEnding, TakesLine};

use crate::cuts::pieces::Piece;
use crate::fmt::CutsAtAscii;
use memchr::memchr;

/// Returns the length of the first line of a text that isn't empty, and of its line ending: an LF, or a CR and an LF.
///
/// ```
/// let piece = first_line::<UTF8>(b"one\r\ntwo");
/// assert_eq!(rt; (piece.len, piece.ending), (3, 2));
/// ```
pub fn first_line<F: CutsAtAscii>(bytes: &[u8]) -> Piece
    requires valid { F.valid bytes.now }
    requires some { 0 < length bytes.now }
    ensures line { TakesLine bytes.now (take result.len bytes.now) (drop (result.len + result.ending) bytes.now) }
    ensures within { result.len + result.ending ≤ length bytes.now }
    ensures front_valid { F.valid (take result.len bytes.now) }
    ensures cut_valid { F.valid (drop result.len bytes.now) }
    ensures rest_valid { F.valid (drop (result.len + result.ending) bytes.now) }
{
    let Some(at) = memchr(b'\n', bytes) else {
        return Piece {
            len: bytes.len(),
            ending: 0,
        };
    };
    if follows_cr(bytes, at) {
        return Piece {
            len: at - 1,
            ending: 2,
        };
    }
    Piece { len: at, ending: 1 }
}

// Whether the byte before an index is a CR.
fn follows_cr(bytes: &[u8], at: usize) -> bool
    requires { at ≤ length bytes.now }
    ensures { IsTrue result ↔ ((0 < at) × (slice_index bytes.now (at - 1) ≡ 13)) }
{
    at > 0 && bytes[at - 1] == b'\r'
}

/// The number of bytes of the line ending at the end: 2, 1, or 0 if there is none.
pub fn line_ending_len<F: CutsAtAscii>(bytes: &[u8]) -> usize
    requires { F.valid bytes.now }
    ensures within { result ≤ length bytes.now }
    ensures without { IsWithoutEnding bytes.now (take (length bytes.now - result) bytes.now) }
    ensures still_valid { F.valid (take (length bytes.now - result) bytes.now) }
{
    match bytes {
        [.., b'\r', b'\n'] => 2,
        [.., b'\n'] => 1,
        _ => 0,
    }
}
