//! Blocks of 16 bytes or units, that are tested and written at once.
ghost use Rattle.std.specs.Prelude.{◌≡◌, ◌↔◌, ◌+◌, ◌*◌, ◌<◌, ◌≤◌, ◌++◌, ℕ, List, true, false};
ghost use Rattle.std.specs.Prelude.{length, replicate, slice_index, take};
ghost use Rattle.std.specs.List.{AllByRecursion};
ghost use Rattle.std.specs.Str.{all_scalars, encode_utf8_all};
ghost use Rattle.tendril_fmt.specs.Blocks.{ArePairs, LackSurrogates, first_set, fronts, units_of};
ghost use Rattle.tendril_fmt.specs.Wtf8.{wtf8};

use std::simd::prelude::*;

/// How many bytes or units a block has.
pub const BLOCK: usize = 16;

/// How many bytes `encode_block` may write to: three for a unit, and one more.
pub const ROOM: usize = 49;

/// Whether the bytes of a block are all ASCII.
#[inline(always)]
pub fn is_ascii(block: u8x16) -> bool
    ensures { (result ≡ true) ↔ AllByRecursion (λ b. b < 0x80) block }
{
    block.simd_ge(u8x16::splat(0x80)).to_bitmask() == 0
}

/// How many ASCII bytes a block begins with.
#[inline(always)]
pub fn leading_ascii(block: u8x16) -> usize
    ensures few { result ≤ BLOCK }
    ensures ascii { (k : ℕ) → k < result → slice_index block k < 0x80 }
    ensures stops { result < BLOCK → 0x80 ≤ slice_index block result }
{
    first_set(block.simd_ge(u8x16::splat(0x80)).to_bitmask(), BLOCK)
}

// The index of the lowest set bit of a mask of `lanes` bits, or `lanes` if none is set.
#[inline(always)]
pub(crate) fn first_set(mask: u64, lanes: usize) -> usize
    ensures { result ≡ first_set lanes mask }
{
    if mask == 0 {
        lanes
    } else {
        mask.trailing_zeros() as usize
    }
}

/// Writes bytes at an offset, and returns the offset after them.
#[inline(always)]
pub fn put_run(bytes: &mut [u8], at: usize, run: &[u8]) -> usize
    requires { at + length run.now ≤ length bytes.old }
    ensures place { result ≡ at + length run.now }
    ensures bytes { take result bytes.new ≡ take at bytes.old ++ run.now }
{
    let end = at + run.len();
    bytes[at..end].copy_from_slice(run);
    end
}

// The low and the high bytes of a block of units.
#[inline(always)]
pub(crate) fn low_high(units: &[u16]) -> (u8x16, u8x16)
    requires { length units.now ≡ BLOCK }
    ensures { units_of result.0 result.1 ≡ units.now }
{
    let block = u16x16::from_slice(units);
    let low = (block % u16x16::splat(0x100)).cast::<u8>();
    let high = (block / u16x16::splat(0x100)).cast::<u8>();
    (low, high)
}

/// Whether a block has a surrogate, by the high bytes of its units.
#[inline(always)]
pub fn has_surrogate(high: u8x16) -> bool
    ensures { (result ≡ false) ↔ LackSurrogates high }
{
    let surrogates = (high / u8x16::splat(8)).simd_eq(u8x16::splat(0xD8 / 8));
    surrogates.to_bitmask() != 0
}

/// Writes a block of units, by their low and their high bytes, as UTF-8 at an offset, and returns the offset after it.
/// A surrogate has three bytes. No unit costs a branch.
#[inline(always)]
pub fn encode_block(bytes: &mut [u8], at: usize, low: u8x16, high: u8x16) -> usize
    requires { at + ROOM ≤ length bytes.old }
    ensures place { result ≤ at + 3 * BLOCK }
    ensures bytes { take result bytes.new ≡ take at bytes.old ++ encode_utf8_all (units_of low high) }
    ensures scalars { LackSurrogates high → all_scalars (units_of low high) ≡ true }
{
    if are_ascii(low, high) {
        return put_run(bytes, at, &low.to_array());
    }
    let (words, lens) = words_of(low, high);
    if are_threes(lens) {
        return put_threes(bytes, at, words);
    }
    put_words(bytes, at, &words.to_array(), &lens.to_array())
}

// Whether the units of a block are all ASCII.
#[inline(always)]
fn are_ascii(low: u8x16, high: u8x16) -> bool
    ensures { result ≡ true → (k : ℕ) → k < BLOCK → (slice_index low k < 0x80) × (slice_index high k ≡ 0) }
{
    let others = low.simd_ge(u8x16::splat(0x80)) | high.simd_ne(u8x16::splat(0));
    others.to_bitmask() == 0
}

// The UTF-8 of each unit of a block, at the start of a word of four bytes, and how many bytes each has.
#[inline(always)]
fn words_of(low: u8x16, high: u8x16) -> (u8x64, u8x16)
    ensures few { (k : ℕ) → slice_index result.1 k ≤ 3 }
    ensures words { fronts result.0 result.1 ≡ encode_utf8_all (units_of low high) }
{
    let one = high.simd_eq(u8x16::splat(0)) & low.simd_lt(u8x16::splat(0x80));
    let three = high.simd_ge(u8x16::splat(8));
    let lead = high / u8x16::splat(0x10) + u8x16::splat(0xE0);
    let middle = high % u8x16::splat(0x10) * u8x16::splat(4) + low / u8x16::splat(0x40);
    let last = low % u8x16::splat(0x40) + u8x16::splat(0x80);
    let first = three.select(lead, one.select(low, middle + u8x16::splat(0xC0)));
    let second = three.select(middle + u8x16::splat(0x80), last);
    let lens = three.select(
        u8x16::splat(3),
        one.select(u8x16::splat(1), u8x16::splat(2)),
    );
    let pairs: u8x32 = first.shuffle(second, IN_PAIRS);
    let lasts: u8x32 = last.swizzle(TWICE);
    (pairs.shuffle(lasts, IN_FOURS), lens)
}

// The lanes of two vectors of 16 in turn.
const IN_PAIRS: [usize; 32] = [
    0, 16, 1, 17, 2, 18, 3, 19, 4, 20, 5, 21, 6, 22, 7, 23, 8, 24, 9, 25, 10, 26, 11, 27, 12, 28,
    13, 29, 14, 30, 15, 31,
];

// Each lane of a vector of 16 twice.
const TWICE: [usize; 32] = [
    0, 0, 1, 1, 2, 2, 3, 3, 4, 4, 5, 5, 6, 6, 7, 7, 8, 8, 9, 9, 10, 10, 11, 11, 12, 12, 13, 13, 14,
    14, 15, 15,
];

// Two lanes of each of two vectors of 32 in turn.
const IN_FOURS: [usize; 64] = [
    0, 1, 32, 33, 2, 3, 34, 35, 4, 5, 36, 37, 6, 7, 38, 39, 8, 9, 40, 41, 10, 11, 42, 43, 12, 13,
    44, 45, 14, 15, 46, 47, 16, 17, 48, 49, 18, 19, 50, 51, 20, 21, 52, 53, 22, 23, 54, 55, 24, 25,
    56, 57, 26, 27, 58, 59, 28, 29, 60, 61, 30, 31, 62, 63,
];

// Whether each unit of a block has three bytes.
#[inline(always)]
fn are_threes(lens: u8x16) -> bool
    ensures { result ≡ true → lens ≡ replicate BLOCK 3 }
{
    lens.simd_ne(u8x16::splat(3)).to_bitmask() == 0
}

// Writes the first three bytes of each word of four bytes, and returns the offset after them.
#[inline(always)]
fn put_threes(bytes: &mut [u8], at: usize, words: u8x64) -> usize
    requires { at + 3 * BLOCK ≤ length bytes.old }
    ensures place { result ≡ at + 3 * BLOCK }
    ensures bytes { take result bytes.new ≡ take at bytes.old ++ fronts words (replicate BLOCK 3) }
{
    let start: u8x16 = words.swizzle([0, 1, 2, 4, 5, 6, 8, 9, 10, 12, 13, 14, 16, 17, 18, 20]);
    let at = put_run(bytes, at, &start.to_array());
    let middle: u8x16 = words.swizzle([
        21, 22, 24, 25, 26, 28, 29, 30, 32, 33, 34, 36, 37, 38, 40, 41,
    ]);
    let at = put_run(bytes, at, &middle.to_array());
    let end: u8x16 = words.swizzle([
        42, 44, 45, 46, 48, 49, 50, 52, 53, 54, 56, 57, 58, 60, 61, 62,
    ]);
    put_run(bytes, at, &end.to_array())
}

// Writes the first bytes of each word of four bytes, as many as `lens` says, and returns the offset after them. The
// bytes after those of a word are overwritten by the next.
#[inline(always)]
fn put_words(bytes: &mut [u8], start: usize, words: &[u8], lens: &[u8]) -> usize
    requires words { length words.now ≡ 4 * length lens.now }
    requires few { (k : ℕ) → slice_index lens.now k ≤ 3 }
    requires room { start + 3 * length lens.now + 1 ≤ length bytes.old }
    ensures place { result ≤ start + 3 * length lens.now }
    ensures bytes { take result bytes.new ≡ take start bytes.old ++ fronts words.now lens.now }
{
    let mut at = start;
    let mut rest = words;
    for len in lens {
        let (word, after) = rest.split_at(4);
        let _end = put_run(bytes, at, word);
        at += *len as usize;
        rest = after;
    }
    at
}

// Whether the units of a block are surrogate pairs, by their high bytes.
#[inline(always)]
pub(crate) fn are_pairs(high: u8x16) -> bool
    ensures { result ≡ true → ArePairs high }
{
    let others = (high / u8x16::splat(4)).simd_ne(u8x16::from_array(LEAD_TRAIL));
    others.to_bitmask() == 0
}

// The high byte of a lead divided by 4 (0xD8 / 4) and that of a trail (0xDC / 4), in turn.
const LEAD_TRAIL: [u8; 16] = [
    0x36, 0x37, 0x36, 0x37, 0x36, 0x37, 0x36, 0x37, 0x36, 0x37, 0x36, 0x37, 0x36, 0x37, 0x36, 0x37,
];

// The WTF-8 of a block of surrogate pairs, by the low and the high bytes of its units: four bytes for each pair. The
// first and the second are computed at the leads, the third and the fourth at the trails; other lanes are dropped.
#[inline(always)]
pub(crate) fn encode_pairs(low: u8x16, high: u8x16) -> u8x32
    requires { ArePairs high }
    ensures { (rest : List ℕ) → wtf8 (units_of low high ++ rest) ≡ result ++ wtf8 rest }
{
    // A surrogate has ten bits of its code point: two in the high byte, eight in the low one. A pair encodes its code
    // point less 0x1_0000, so 0x1_0000 / 0x1000 is added.
    let top_bits = high % u8x16::splat(4);
    let lead_bits = low / u8x16::splat(4) + u8x16::splat(0x10);
    let first = lead_bits / u8x16::splat(0x40) + top_bits + u8x16::splat(0xF0);
    let second = lead_bits % u8x16::splat(0x40) + u8x16::splat(0x80);
    let lead_low: u8x16 = low.swizzle(LEAD_TWICE);
    let middle = lead_low % u8x16::splat(4) * u8x16::splat(0x10) + top_bits * u8x16::splat(4);
    let third = middle + low / u8x16::splat(0x40) + u8x16::splat(0x80);
    let fourth = low % u8x16::splat(0x40) + u8x16::splat(0x80);
    let first_third: u8x16 = first.shuffle(third, ALTERNATELY);
    let second_fourth: u8x16 = second.shuffle(fourth, ALTERNATELY);
    first_third.shuffle(second_fourth, IN_PAIRS)
}

// The lane of each lead at its own place and at its trail's.
const LEAD_TWICE: [usize; 16] = [0, 0, 2, 2, 4, 4, 6, 6, 8, 8, 10, 10, 12, 12, 14, 14];

// The even lanes of one vector of 16 and the odd lanes of another, each at its own place.
const ALTERNATELY: [usize; 16] = [0, 17, 2, 19, 4, 21, 6, 23, 8, 25, 10, 27, 12, 29, 14, 31];
