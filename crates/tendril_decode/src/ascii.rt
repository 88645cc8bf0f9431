//! Blocks of bytes that are read and written at once.
ghost use Rattle.std.specs.Prelude.{◌≡◌, ◌+◌, ◌-◌, ◌<◌, ◌≤◌, ◌++◌, length, take, slice_index, slice_range};
ghost use Rattle.std.specs.List.{AllByRecursion};

use std::simd::prelude::*;
use tendril_fmt::blocks::{BLOCK, is_ascii};

// The block at an offset.
#[inline(always)]
pub(crate) fn block_at(bytes: &[u8], at: usize) -> u8x16
    requires { at + BLOCK ≤ length bytes.now }
    ensures { result ≡ slice_range bytes.now at (at + BLOCK) }
{
    u8x16::from_slice(&bytes[at..])
}

// Writes a block at an offset, and returns the offset after it.
#[inline(always)]
pub(crate) fn put_block(out: &mut [u8], at: usize, block: u8x16) -> usize
    requires { at + BLOCK ≤ length out.old }
    ensures place { result ≡ at + BLOCK }
    ensures bytes { take result out.new ≡ take at out.old ++ block }
{
    block.copy_to_slice(&mut out[at..]);
    at + BLOCK
}

// How many bytes of a block are no ASCII.
#[inline(always)]
pub(crate) fn count_others(block: u8x16) -> u32 {
    block.simd_ge(u8x16::splat(0x80)).to_bitmask().count_ones()
}

// Copies the ASCII byte at an offset to another offset, or the block there if all its bytes are ASCII. Returns how many
// bytes those are.
#[inline(always)]
pub(crate) fn copy_ascii(input: &[u8], out: &mut [u8], from: usize, start: usize) -> usize
    requires within { from < length input.now }
    requires ascii { slice_index input.now from < 0x80 }
    requires room { start + (length input.now - from) ≤ length out.old }
    ensures some { 0 < result }
    ensures within { from + result ≤ length input.now }
    ensures ascii { AllByRecursion (λ b. b < 0x80) (slice_range input.now from (from + result)) }
    ensures bytes { take (start + result) out.new ≡ take start out.old ++ slice_range input.now from (from + result) }
{
    if input.len() - from >= BLOCK {
        let block = block_at(input, from);
        if is_ascii(block) {
            let _end = put_block(out, start, block);
            return BLOCK;
        }
    }
    out[start] = input[from];
    1
}
