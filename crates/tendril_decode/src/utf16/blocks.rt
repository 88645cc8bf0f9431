//! Blocks of units that are decoded at once. A block that has a surrogate is decoded unit by unit, more slowly.
ghost use Rattle.std.specs.Prelude.{◌≡◌, ◌+◌, ◌*◌, ◌<◌, ◌≤◌, ◌++◌, ℕ, length, take, true, slice_index};
ghost use Rattle.std.specs.Str.{all_scalars, encode_utf8_all};
ghost use Rattle.tendril_decode.specs.Utf16Blocks.{byte_at, first_units};

use std::simd::prelude::*;
use tendril_fmt::blocks::{BLOCK, encode_block, has_surrogate};

// How many units were decoded, and the offset after what was written.
#[derive(Clone, Copy)]
pub(super) struct DecodedBlock {
    pub(super) count: usize,
    pub(super) end: usize,
}

// Decodes a block of units, if there are enough bytes for one and none of its units is a surrogate.
#[inline(always)]
pub(super) fn decode_block(big: bool, bytes: &[u8], out: &mut [u8], at: usize) -> DecodedBlock
    requires { at + 3 * length bytes.now ≤ length out.old }
    ensures read { 2 * result.count ≤ length bytes.now }
    ensures written { result.end ≤ at + 3 * result.count }
    ensures scalars { all_scalars (first_units big bytes.now result.count) ≡ true }
    ensures bytes { take result.end out.new
        ≡ take at out.old ++ encode_utf8_all (first_units big bytes.now result.count) }
{
    if bytes.len() < 2 * BLOCK {
        return DecodedBlock { count: 0, end: at };
    }
    let low = bytes_of(big, bytes);
    let high = bytes_of(!big, bytes);
    if has_surrogate(high) {
        return DecodedBlock { count: 0, end: at };
    }
    let end = encode_block(out, at, low, high);
    DecodedBlock { count: BLOCK, end }
}

// The first or the second bytes of the units of a block.
#[inline(always)]
fn bytes_of(second: bool, block: &[u8]) -> u8x16
    requires { 2 * BLOCK ≤ length block.now }
    ensures len { length result ≡ BLOCK }
    ensures bytes { (k : ℕ) → k < BLOCK → slice_index result k ≡ byte_at second block.now k }
{
    let bytes = u8x32::from_slice(block);
    if second {
        bytes.swizzle([1, 3, 5, 7, 9, 11, 13, 15, 17, 19, 21, 23, 25, 27, 29, 31])
    } else {
        bytes.swizzle([0, 2, 4, 6, 8, 10, 12, 14, 16, 18, 20, 22, 24, 26, 28, 30])
    }
}
