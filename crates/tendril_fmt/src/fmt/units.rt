//! The 16-bit units of WTF-8.
ghost use Rattle.std.specs.Prelude.{◌≡◌, ◌+◌, ◌*◌, ◌<◌, ◌≤◌, ◌&&◌, [], ◌++◌, if◌then◌else◌, length, take};
ghost use Rattle.std.specs.Prelude.{encode_utf8, true, IfSome, MatchOption};
ghost use Rattle.std.specs.Iterator.{YieldsFirst, item_count};
ghost use Rattle.std.specs.Char.Utf16.{is_high_surrogate, is_low_surrogate};
ghost use Rattle.std.specs.List.{AllByRecursion};
ghost use Rattle.std.specs.Simd.Lanes.{chunk, put_chunk};
ghost use Rattle.tendril_fmt.specs.Units.{SplitsUnits, StartsWithAscii, bytes_behind};
ghost use Rattle.tendril_fmt.specs.Wtf8.{IsWtf8, units as units_of, wtf8};

use crate::blocks::{
    BLOCK, ROOM, are_pairs, encode_block, encode_pairs, has_surrogate, low_high, put_run,
};
use crate::fmt::code_point::put_code_point;
use crate::futf::split_text;
use std::iter::FusedIterator;
use std::marker::Model;
use std::simd::prelude::*;

/// The 16-bit units of WTF-8, as in UTF-16: two for a character past U+FFFF, one for any other character or a lone
/// surrogate.
///
/// Contracts see the list of the remaining units. The bytes are known to be valid, and aren't validated again.
#[derive(Drop)]
pub struct Wtf8Units<'a> {
    rest: &'a [u8],
    // The trail of a pair, if its lead was returned last.
    trail: Option<u16>,
}

impl<'a> Model for Wtf8Units<'a> {
    ghost use Rattle.std.specs.Prelude.{ℕ, List};
    ghost use Rattle.tendril_fmt.specs.Units.{units_left};
    ghost use Rattle.tendril_fmt.specs.Wtf8.{IsWtf8};

    ghost Value = { List ℕ };

    ghost view = { λ it. units_left it.trail it.rest.now };

    ghost invariant = { λ it. IsWtf8 it.rest.now };
}

impl<'a> Wtf8Units<'a> {
    /// All units of the bytes. Reads none of them yet.
    pub fn new(bytes: &'a [u8]) -> Self
        requires { IsWtf8 bytes.now }
        ensures { result ≡ units_of bytes.now }
    {
        Wtf8Units {
            rest: bytes,
            trail: None,
        }
    }
}

impl<'a> Iterator for Wtf8Units<'a> {
    type Item = u16;

    ghost next_gives = { YieldsFirst (λ rest. rest) };

    ghost remaining = { item_count (λ rest. rest) };

    fn next(&mut self) -> Option<u16> {
        if let Some(trail) = self.trail.take() {
            return Some(trail);
        }
        let (code, rest) = split_text(self.rest)?;
        self.rest = rest;
        if code < 0x1_0000 {
            return Some(code as u16);
        }
        let above = code - 0x1_0000;
        self.trail = Some((0xDC00 + above % 0x400) as u16);
        Some((0xD800 + above / 0x400) as u16)
    }
}

impl<'a> FusedIterator for Wtf8Units<'a> {}

// How many units `count_piece` counts, in a number of 16 bits: eight of these fit into a register of the processor.
const COUNTED: usize = 4096;

/// How many bytes the WTF-8 of units has.
pub fn wtf8_len(units: &[u16]) -> usize
    ensures { result ≡ length (wtf8 units.now) }
{
    let mut len = 0;
    let mut last = 0;
    let mut rest = units;
    while !rest.is_empty() {
        if let Some((ascii, after)) = split_ascii(rest) {
            len += ascii.len();
            // Of an ASCII unit it only matters that it is no lead.
            last = 0;
            rest = after;
        } else {
            let (count, end, after) = count_piece(last, rest);
            len += count as usize;
            last = end;
            rest = after;
        }
    }
    len
}

// How many bytes the first units add after the unit `before`; the last of these units; and the units after it.
#[inline]
fn count_piece(before: u16, units: &[u16]) -> (u16, u16, &[u16])
    requires some { 0 < length units.now }
    ensures bytes { result.0 + bytes_behind result.1 result.2.now ≡ bytes_behind before units.now }
    ensures shorter { length result.2.now < length units.now }
{
    let (piece, after) = units.split_at(units.len().min(COUNTED));
    let mut len = 0;
    let mut last = before;
    for unit in piece {
        len += len_behind(last, *unit);
        last = *unit;
    }
    (len, last, after)
}

// How many bytes a unit adds after the unit `last`: a trail after a lead adds one to the lead's three. Without a
// branch, so that several are counted at once.
#[inline]
fn len_behind(last: u16, unit: u16) -> u16
    ensures bytes { result
        ≡ (if is_high_surrogate last && is_low_surrogate unit then 1 else length (encode_utf8 unit)) }
    ensures few { result ≤ 3 }
{
    if is_lead(last) & is_trail(unit) {
        1
    } else {
        encoded_len(unit)
    }
}

// How many bytes a unit by itself has.
#[inline]
fn encoded_len(unit: u16) -> u16
    ensures bytes { result ≡ length (encode_utf8 unit) }
    ensures few { result ≤ 3 }
{
    if unit < 0x80 {
        1
    } else if unit < 0x800 {
        2
    } else {
        3
    }
}

/// Overwrites bytes with the WTF-8 of units, which has the same length.
pub fn encode_wtf8(units: &[u16], bytes: &mut [u8])
    requires { length bytes.old ≡ length (wtf8 units.now) }
    ensures { bytes.new ≡ wtf8 units.now }
{
    let mut at = 0;
    let mut rest = units;
    loop {
        if let Some((ascii, after)) = split_ascii(rest) {
            put_ascii(bytes, at, ascii);
            at += BLOCK;
            rest = after;
        } else if rest.is_empty() {
            return;
        } else {
            let (end, after) = put_next(bytes, at, rest);
            at = end;
            rest = after;
        }
    }
}

// The first `BLOCK` units, if all are ASCII, and those after them. If the first isn't one, the others aren't read.
#[inline]
fn split_ascii(units: &[u16]) -> Option<(&[u16], &[u16])>
    ensures { IfSome result (λ p. StartsWithAscii units.now p.0.now p.1.now) }
{
    let first = units.first()?;
    if 0x80 <= *first || units.len() < BLOCK {
        return None;
    }
    let (front, after) = units.split_at(BLOCK);
    if !are_ascii(u16x16::from_slice(front)) {
        return None;
    }
    Some((front, after))
}

// Whether all units of a block are ASCII.
#[inline]
fn are_ascii(block: u16x16) -> bool
    ensures { result ≡ true → AllByRecursion (λ u. u < 0x80) block }
{
    block.simd_ge(u16x16::splat(0x80)).to_bitmask() == 0
}

// Writes a block of ASCII units at an offset.
#[inline]
fn put_ascii(bytes: &mut [u8], at: usize, units: &[u16])
    requires ascii { AllByRecursion (λ u. u < 0x80) units.now }
    requires block { length units.now ≡ BLOCK }
    requires fits { at + BLOCK ≤ length bytes.old }
    ensures { bytes.new ≡ put_chunk at bytes.old (chunk 0 BLOCK units.now) }
{
    u16x16::from_slice(units)
        .cast::<u8>()
        .copy_to_slice(&mut bytes[at..]);
}

// Writes the WTF-8 of the first units: of a whole block if all its units are surrogate pairs, or if none is a surrogate
// and `ROOM` bytes are left; else one code point after another. Returns the offset after it, and the units after them.
#[inline]
fn put_next<'a>(bytes: &mut [u8], at: usize, units: &'a [u16]) -> (usize, &'a [u16])
    requires { at + length (wtf8 units.now) ≡ length bytes.old }
    ensures place { result.0 + length (wtf8 result.1.now) ≡ length bytes.old }
    ensures bytes { take result.0 bytes.new ++ wtf8 result.1.now ≡ take at bytes.old ++ wtf8 units.now }
    ensures shorter { 0 < length units.now → length result.1.now < length units.now }
{
    if units.len() >= BLOCK {
        let (front, after) = units.split_at(BLOCK);
        let (low, high) = low_high(front);
        if has_surrogate(high) {
            if are_pairs(high) {
                let end = put_run(bytes, at, &encode_pairs(low, high).to_array());
                return (end, after);
            }
        } else if bytes.len() - at >= ROOM {
            let end = encode_block(bytes, at, low, high);
            return (end, after);
        }
    }
    put_some(bytes, at, units)
}

// Writes the WTF-8 of the first `BLOCK` units, one code point after another. Returns the offset after it, and the units
// after them.
fn put_some<'a>(bytes: &mut [u8], start: usize, units: &'a [u16]) -> (usize, &'a [u16])
    requires { start + length (wtf8 units.now) ≡ length bytes.old }
    ensures place { result.0 + length (wtf8 result.1.now) ≡ length bytes.old }
    ensures bytes { take result.0 bytes.new ++ wtf8 result.1.now ≡ take start bytes.old ++ wtf8 units.now }
    ensures shorter { 0 < length units.now → length result.1.now < length units.now }
{
    let end = units.len().saturating_sub(BLOCK);
    let mut at = start;
    let mut rest = units;
    while rest.len() > end
        && let Some((code, after)) = split_units(rest)
    {
        at = put_code_point(bytes, at, code);
        rest = after;
    }
    (at, rest)
}

// Splits off the first code point: a lead and the trail right after it are one code point, any other unit is one by
// itself.
#[inline]
fn split_units(units: &[u16]) -> Option<(u32, &[u16])>
    ensures { MatchOption result (units.now ≡ []) (λ p. SplitsUnits units.now p.0 p.1.now) }
{
    match units {
        [] => None,
        [lead, trail, rest @ ..] if is_lead(*lead) && is_trail(*trail) => {
            let code = 0x1_0000 + (*lead as u32 - 0xD800) * 0x400 + (*trail as u32 - 0xDC00);
            Some((code, rest))
        }
        [unit, rest @ ..] => Some((*unit as u32, rest)),
    }
}

#[inline]
fn is_lead(unit: u16) -> bool
    ensures { result ≡ is_high_surrogate unit }
{
    0xD800 <= unit && unit < 0xDC00
}

#[inline]
fn is_trail(unit: u16) -> bool
    ensures { result ≡ is_low_surrogate unit }
{
    0xDC00 <= unit && unit < 0xE000
}
