//! Copies of bytes that are made if the bytes are valid.
ghost use Rattle.std.specs.Prelude.{◌≡◌, ◌<◌, ◌≤◌, ◌++◌, true, length, IfSome, IfOk, IfErr, MatchOption};

use crate::fmt::Format;
use crate::futf::is_continuation;
use std::alloc::{AllocError, Global};

/// The maximal length of a piece that is validated and then copied. By where the bytes and their copy begin in their
/// pages, pieces can take longer than two passes: those of 4 KB at many places, those of 1 KB at few.
pub const PIECE: usize = 1024;

/// Returns a copy of the bytes if they are valid. The error says that they are, and that an allocation failed.
///
/// Validates and copies a piece after the other, so that each is read from the cache when it is copied. Bytes that
/// aren't valid piece by piece are validated once more.
pub fn copy_if_valid<F: Format>(alloc: Global, bytes: &[u8]) -> Result<Option<Vec<u8>>, AllocError>
    ensures copy { IfOk result (λ o. IfSome o (λ v. v.items ≡ bytes.now)) }
    ensures valid { IfOk result (λ o. MatchOption o (¬ (F.valid bytes.now)) (λ _. F.valid bytes.now)) }
    ensures err { IfErr result (λ _. F.valid bytes.now) }
{
    if let Some(copy) = copy_pieces::<F>(alloc, bytes) {
        return Ok(Some(copy));
    }
    // Valid bytes can come here too, such as WTF-8 in which a piece ends between two surrogates.
    if !F::validate(bytes) {
        return Ok(None);
    }
    let mut copy = Vec::with_capacity(alloc, bytes.len())?;
    copy.extend_from_slice(bytes)?;
    Ok(Some(copy))
}

// A copy of the bytes, if they are valid piece by piece and the allocation doesn't fail.
fn copy_pieces<F: Format>(alloc: Global, bytes: &[u8]) -> Option<Vec<u8>>
    ensures items { IfSome result (λ v. v.items ≡ bytes.now) }
    ensures valid { IfSome result (λ _. F.valid bytes.now) }
{
    let mut copy = Vec::with_capacity(alloc, bytes.len()).ok()?;
    let mut rest = bytes;
    while !rest.is_empty() {
        let (piece, after) = rest.split_at(piece_len(rest));
        if !F::validate(piece) || !concatenates::<F>(copy.as_slice(), piece) {
            return None;
        }
        copy.extend_from_slice(piece).ok()?;
        rest = after;
    }
    Some(copy)
}

// The length of the next piece. In UTF-8 it ends where a character ends: before a byte that isn't a continuation byte.
fn piece_len(bytes: &[u8]) -> usize
    requires { 0 < length bytes.now }
    ensures some { 0 < result }
    ensures within { result ≤ length bytes.now }
{
    if bytes.len() <= PIECE {
        return bytes.len();
    }
    let ends = [PIECE, PIECE - 1, PIECE - 2, PIECE - 3];
    for end in ends {
        if !is_continuation(bytes[end]) {
            return end;
        }
    }
    PIECE
}

// Whether the join of two texts is their concatenation.
#[inline(always)]
fn concatenates<F: Format>(left: &[u8], right: &[u8]) -> bool
    requires left_valid { F.valid left.now }
    requires right_valid { F.valid right.now }
    ensures { result ≡ true → F.join left.now right.now ≡ left.now ++ right.now }
{
    F::fixup(left, right).is_nothing()
}
