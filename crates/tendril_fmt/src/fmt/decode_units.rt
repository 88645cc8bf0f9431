//! The units of WTF-8 in a vector.
ghost use Rattle.std.specs.Prelude.{◌≡◌, ◌+◌, ◌<◌, ◌≤◌, ◌++◌, ℕ, length, take, slice_index, vec_len, vec_capacity};
ghost use Rattle.std.specs.Char.Escape.{encode_utf16};
ghost use Rattle.tendril_fmt.specs.CodePoints.{IsCodePoint};
ghost use Rattle.tendril_fmt.specs.Units.{CanPushFront, LeadsThree, LeadsFour, PushesFront};
ghost use Rattle.tendril_fmt.specs.Wtf8.{IsWtf8, units as units_of};

use crate::blocks::{BLOCK, is_ascii, leading_ascii};
use crate::fmt::unit_blocks::{
    HALF, THREES, TWOS, are_fours, count_continuations, count_threes, count_twos, lacks_four,
    units_of_ascii, units_of_fours, units_of_mixed, units_of_threes, units_of_twos,
};
use crate::futf::split_text;
use std::simd::prelude::*;

/// Appends the units of valid WTF-8 to a vector that has spare capacity for one unit per byte, and returns the vector.
pub fn decode_wtf8(bytes: &[u8], units: Vec<u16>) -> Vec<u16>
    requires valid { IsWtf8 bytes.now }
    requires room { vec_len units + length bytes.now ≤ vec_capacity units }
    ensures { result.items ≡ units.items ++ units_of bytes.now }
{
    // The vector is passed by value, so that the compiler knows that a write to its elements doesn't change its length.
    let mut all = units;
    let mut rest = bytes;
    while BLOCK <= rest.len() {
        rest = push_front(&mut all, rest);
    }
    push_rest(&mut all, rest);
    all
}

// Appends the units of a text, one code point after another.
fn push_rest(units: &mut Vec<u16>, bytes: &[u8])
    requires valid { IsWtf8 bytes.now }
    requires room { vec_len units.old + length bytes.now ≤ vec_capacity units.old }
    ensures { units.new.items ≡ units.old.items ++ units_of bytes.now }
{
    let mut rest = bytes;
    while let Some((code, after)) = split_text(rest) {
        push_units(units, code);
        rest = after;
    }
}

// Appends the units of the first characters of the next 16 bytes, and returns the bytes after them. Blocks of one kind
// come first: ASCII, five characters of three bytes, eight of two. Of any other it decodes the characters that begin in
// the first half.
#[inline(always)]
fn push_front<'a>(units: &mut Vec<u16>, bytes: &'a [u8]) -> &'a [u8]
    requires can { CanPushFront (vec_len units.old) (vec_capacity units.old) bytes.now }
    ensures pushes { PushesFront units.old.items units.new.items bytes.now result.now }
    ensures room { vec_len units.new + length result.now ≤ vec_capacity units.new }
{
    let block = u8x16::from_slice(bytes);
    if is_ascii(block) {
        push_all(units, &units_of_ascii(block).to_array());
        return &bytes[BLOCK..];
    }
    if !lacks_four(block) {
        return push_run(units, bytes);
    }
    if count_threes(block) == THREES {
        push_all(units, &units_of_threes(block).to_array()[..THREES]);
        return &bytes[3 * THREES..];
    }
    if count_twos(block) == TWOS {
        push_all(units, &units_of_twos(block).to_array());
        return &bytes[BLOCK..];
    }
    push_mixed(units, bytes)
}

// `push_front` for characters of one to three bytes in any order: without a branch on their lengths, which would often
// be mispredicted.
#[inline(always)]
fn push_mixed<'a>(units: &mut Vec<u16>, bytes: &'a [u8]) -> &'a [u8]
    requires can { CanPushFront (vec_len units.old) (vec_capacity units.old) bytes.now }
    requires short { (k : ℕ) → k < HALF → slice_index bytes.now k < 0xF0 }
    ensures pushes { PushesFront units.old.items units.new.items bytes.now result.now }
    ensures room { vec_len units.new + length result.now ≤ vec_capacity units.new }
{
    let block = u8x16::from_slice(bytes);
    let (decoded, count) = units_of_mixed(block);
    push_first(units, &decoded.to_array(), count);
    &bytes[HALF + count_continuations(block)..]
}

// `push_front` up to the first character of another length: where some have four bytes, the usual text is runs.
#[inline(always)]
fn push_run<'a>(units: &mut Vec<u16>, bytes: &'a [u8]) -> &'a [u8]
    requires can { CanPushFront (vec_len units.old) (vec_capacity units.old) bytes.now }
    ensures pushes { PushesFront units.old.items units.new.items bytes.now result.now }
    ensures room { vec_len units.new + length result.now ≤ vec_capacity units.new }
{
    match bytes[0] {
        0x00..0x80 => push_ascii(units, bytes),
        0x80..0xE0 => push_twos(units, bytes),
        0xE0..0xF0 => push_threes(units, bytes),
        0xF0..=0xFF => push_fours(units, bytes),
    }
}

// `push_run` for ASCII.
#[inline(always)]
fn push_ascii<'a>(units: &mut Vec<u16>, bytes: &'a [u8]) -> &'a [u8]
    requires can { CanPushFront (vec_len units.old) (vec_capacity units.old) bytes.now }
    requires first { slice_index bytes.now 0 < 0x80 }
    ensures pushes { PushesFront units.old.items units.new.items bytes.now result.now }
    ensures room { vec_len units.new + length result.now ≤ vec_capacity units.new }
{
    let block = u8x16::from_slice(bytes);
    let count = leading_ascii(block);
    push_first(units, &units_of_ascii(block).to_array(), count);
    &bytes[count..]
}

// `push_run` for characters of two bytes: valid text doesn't begin with a continuation byte.
#[inline(always)]
fn push_twos<'a>(units: &mut Vec<u16>, bytes: &'a [u8]) -> &'a [u8]
    requires can { CanPushFront (vec_len units.old) (vec_capacity units.old) bytes.now }
    requires first { (0x80 ≤ slice_index bytes.now 0) × (slice_index bytes.now 0 < 0xE0) }
    ensures pushes { PushesFront units.old.items units.new.items bytes.now result.now }
    ensures room { vec_len units.new + length result.now ≤ vec_capacity units.new }
{
    let block = u8x16::from_slice(bytes);
    let count = count_twos(block);
    push_first(units, &units_of_twos(block).to_array(), count);
    &bytes[2 * count..]
}

// `push_run` for characters of three bytes.
#[inline(always)]
fn push_threes<'a>(units: &mut Vec<u16>, bytes: &'a [u8]) -> &'a [u8]
    requires can { CanPushFront (vec_len units.old) (vec_capacity units.old) bytes.now }
    requires first { LeadsThree (slice_index bytes.now 0) }
    ensures pushes { PushesFront units.old.items units.new.items bytes.now result.now }
    ensures room { vec_len units.new + length result.now ≤ vec_capacity units.new }
{
    let block = u8x16::from_slice(bytes);
    let count = count_threes(block);
    push_first(units, &units_of_threes(block).to_array(), count);
    &bytes[3 * count..]
}

// `push_run` for characters of four bytes: four of them, or one.
#[inline(always)]
fn push_fours<'a>(units: &mut Vec<u16>, bytes: &'a [u8]) -> &'a [u8]
    requires can { CanPushFront (vec_len units.old) (vec_capacity units.old) bytes.now }
    requires first { LeadsFour (slice_index bytes.now 0) }
    ensures pushes { PushesFront units.old.items units.new.items bytes.now result.now }
    ensures room { vec_len units.new + length result.now ≤ vec_capacity units.new }
{
    let block = u8x16::from_slice(bytes);
    let decoded = units_of_fours(block).to_array();
    if are_fours(block) {
        push_all(units, &decoded);
        return &bytes[BLOCK..];
    }
    push_first(units, &decoded, 2);
    &bytes[4..]
}

// Appends the first `count` units of a block. The vector has spare capacity for all of it.
#[inline(always)]
fn push_first(units: &mut Vec<u16>, block: &[u16], count: usize)
    requires within { count ≤ length block.now }
    requires room { vec_len units.old + length block.now ≤ vec_capacity units.old }
    ensures items { units.new.items ≡ units.old.items ++ take count block.now }
    ensures len { vec_len units.new ≡ vec_len units.old + count }
    ensures capacity { vec_capacity units.new ≡ vec_capacity units.old }
{
    let len = units.len() + count;
    push_all(units, block);
    units.truncate(len);
}

// Appends units for which the vector has spare capacity.
#[inline(always)]
fn push_all(units: &mut Vec<u16>, more: &[u16])
    requires room { vec_len units.old + length more.now ≤ vec_capacity units.old }
    ensures items { units.new.items ≡ units.old.items ++ more.now }
    ensures len { vec_len units.new ≡ vec_len units.old + length more.now }
    ensures capacity { vec_capacity units.new ≡ vec_capacity units.old }
{
    // Not `extend_from_slice`, whose code to grow the vector keeps its length in memory.
    for unit in more {
        units.push_reserved(*unit);
    }
}

// Appends the one or two units of a code point.
#[inline]
fn push_units(units: &mut Vec<u16>, code: u32)
    requires point { IsCodePoint code }
    requires room { vec_len units.old + length (encode_utf16 code) ≤ vec_capacity units.old }
    ensures items { units.new.items ≡ units.old.items ++ encode_utf16 code }
    ensures len { vec_len units.new ≡ vec_len units.old + length (encode_utf16 code) }
    ensures capacity { vec_capacity units.new ≡ vec_capacity units.old }
{
    if code < 0x1_0000 {
        units.push_reserved(code as u16);
        return;
    }
    let above = code - 0x1_0000;
    units.push_reserved((0xD800 + above / 0x400) as u16);
    units.push_reserved((0xDC00 + above % 0x400) as u16);
}
