//! Few bytes as words: a word is read, compared or written at once.
//!
//! Five words, which may overlap, cover 8 to 40 bytes, so no further branch depends on their number. A call of std
//! branches on it, and costs more.
ghost use Rattle.std.specs.Prelude.{◌≡◌, ◌↔◌, ◌+◌, ◌≤◌, ◌++◌, length, take, drop, true};
ghost use Rattle.std.specs.Int.{to_le_bytes, w64};

use crate::inline_bytes::NODE_CAPACITY;

/// The number of bytes of a word.
pub const WORD_LEN: usize = 8;

const _: () = prove!(NODE_CAPACITY == 5 * WORD_LEN);

/// Returns at most 8 bytes as the lowest ones of a word. The first and the last 4 are loaded, or the first and the last
/// 2: a branch for each number of bytes would be mispredicted where lengths change, and to read as one word what was
/// just written in pieces would stall the processor.
#[inline(always)]
pub fn word_of(bytes: &[u8]) -> u64
    requires { length bytes.now ≤ WORD_LEN }
    ensures { take (length bytes.now) (to_le_bytes w64 result) ≡ bytes.now }
{
    if let (Some(first), Some(last)) = (bytes.first_chunk::<4>(), bytes.last_chunk::<4>()) {
        // What is in both is shifted out of the last.
        let rest = u64::from(u32::from_le_bytes(*last)) >> (8 * (8 - bytes.len()));
        return u64::from(u32::from_le_bytes(*first)) | rest << 32;
    }
    if let (Some(first), Some(last)) = (bytes.first_chunk::<2>(), bytes.last_chunk::<2>()) {
        let rest = u64::from(u16::from_le_bytes(*last)) >> (8 * (4 - bytes.len()));
        return u64::from(u16::from_le_bytes(*first)) | rest << 16;
    }
    bytes.first().map_or(0, |byte| u64::from(*byte))
}

/// Whether two slices of the same length are equal. 8 to 40 bytes are compared as words.
#[inline(always)]
pub fn same_bytes(left: &[u8], right: &[u8]) -> bool
    requires { length left.now ≡ length right.now }
    ensures { (result ≡ true) ↔ (left.now ≡ right.now) }
{
    let len = left.len();
    if len < WORD_LEN || len > NODE_CAPACITY {
        return left == right;
    }
    let last = len - WORD_LEN;
    same_word(left, right, 0)
        & same_word(left, right, last.min(WORD_LEN))
        & same_word(left, right, last.min(2 * WORD_LEN))
        & same_word(left, right, last.min(3 * WORD_LEN))
        & same_word(left, right, last)
}

#[inline(always)]
fn same_word(left: &[u8], right: &[u8], at: usize) -> bool
    requires in_left { at + WORD_LEN ≤ length left.now }
    requires in_right { at + WORD_LEN ≤ length right.now }
    ensures { (result ≡ true) ↔ (take WORD_LEN (drop at left.now) ≡ take WORD_LEN (drop at right.now)) }
{
    word_of(&left[at..at + WORD_LEN]) == word_of(&right[at..at + WORD_LEN])
}

/// Copies at most 40 bytes over as many others, 8 and more of them as words.
#[inline(always)]
pub(crate) fn copy_few(place: &mut [u8], bytes: &[u8])
    requires few { length bytes.now ≤ NODE_CAPACITY }
    requires len { length place.old ≡ length bytes.now }
    ensures { place.new ≡ bytes.now }
{
    let len = bytes.len();
    if len < WORD_LEN {
        place.copy_from_slice(bytes);
        return;
    }
    let last = len - WORD_LEN;
    copy_word(place, bytes, 0);
    copy_word(place, bytes, last.min(WORD_LEN));
    copy_word(place, bytes, last.min(2 * WORD_LEN));
    copy_word(place, bytes, last.min(3 * WORD_LEN));
    copy_word(place, bytes, last);
}

// Copies the word at an offset over that at the same offset of `place`.
#[inline(always)]
fn copy_word(place: &mut [u8], bytes: &[u8], at: usize)
    requires in_place { at + WORD_LEN ≤ length place.old }
    requires in_bytes { at + WORD_LEN ≤ length bytes.now }
    ensures { place.new ≡ take at place.old ++ (take WORD_LEN (drop at bytes.now) ++ drop (at + WORD_LEN) place.old) }
{
    let word = word_of(&bytes[at..at + WORD_LEN]);
    put_word(&mut place[at..at + WORD_LEN], word);
}

// Overwrites all bytes by those of a word. `copy_from_slice` would test whether the two overlap.
#[inline(always)]
fn put_word(place: &mut [u8], word: u64)
    requires { length place.old ≡ WORD_LEN }
    ensures { place.new ≡ to_le_bytes w64 word }
{
    if let Some(bytes) = place.as_mut_array::<WORD_LEN>() {
        *bytes = word.to_le_bytes();
    }
}
