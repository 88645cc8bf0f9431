//! Shift_JIS.
ghost use Rattle.std.specs.Prelude.{◌≡◌, ◌*◌, ◌<◌, ◌≤◌, true};
ghost use Rattle.std.specs.Char.{IsScalar};
ghost use Rattle.tendril_decode.specs.ShiftJis.{is_private, is_sjis_trail, sjis_cell, sjis_char, sjis_first, sjis_row};
ghost use Rattle.tendril_decode.specs.TwoBytes.{is_lead};

use crate::indexes::jis0208_at;
use crate::two_bytes::{First, LeadTrail, Pair, TwoBytes, in_range, pair_of};

/// The leads and trails of Shift_JIS.
#[derive(Clone, Copy, PartialEq, Eq, Debug)]
pub struct ShiftJisPairs;

/// The state between two slices of a stream in Shift_JIS.
pub type ShiftJis = TwoBytes<ShiftJisPairs>;

impl LeadTrail for ShiftJisPairs {
    ghost use Rattle.tendril_decode.specs.ShiftJis.{sjis_first, sjis_pair};

    ghost first = { sjis_first };

    ghost pair = { sjis_pair };

    #[inline(always)]
    fn first(byte: u8) -> First {
        if in_range(0x81, 0x9F, byte) || in_range(0xE0, 0xFC, byte) {
            First::Lead
        } else if in_range(0xA1, 0xDF, byte) {
            First::Character(0xFF61 + (byte as u32 - 0xA1))
        } else if byte == 0x80 {
            First::Character(0x80)
        } else {
            First::Malformed
        }
    }

    #[inline(always)]
    fn pair(lead: u8, trail: u8) -> Pair {
        if !is_trail(trail) {
            return Pair::Absent;
        }
        pair_of(char_at(row_of(lead) + cell_of(trail)))
    }
}

// Whether a byte is the second of two.
#[inline(always)]
fn is_trail(byte: u8) -> bool
    ensures { result ≡ is_sjis_trail byte }
{
    in_range(0x40, 0x7E, byte) || in_range(0x80, 0xFC, byte)
}

// The place of a trail in a row.
#[inline(always)]
fn cell_of(trail: u8) -> usize
    requires { is_sjis_trail trail ≡ true }
    ensures value { result ≡ sjis_cell trail }
    ensures few { result < 188 }
{
    if trail < 0x7F {
        trail as usize - 0x40
    } else {
        trail as usize - 0x41
    }
}

// The first pointer of a lead.
#[inline(always)]
fn row_of(lead: u8) -> usize
    requires { is_lead (sjis_first lead) ≡ true }
    ensures value { result ≡ sjis_row lead }
    ensures most { result ≤ 59 * 188 }
{
    let row = if lead < 0xA0 {
        lead - 0x81
    } else {
        lead - 0xC1
    };
    row as usize * 188
}

// Whether a pointer is a private character.
#[inline(always)]
fn is_private(pointer: usize) -> bool
    ensures { result ≡ is_private pointer }
{
    8836 <= pointer && pointer <= 10715
}

// The character of a pointer, or 0.
#[inline(always)]
fn char_at(pointer: usize) -> u32
    requires { pointer < 11280 }
    ensures value { result ≡ sjis_char pointer }
    ensures scalar { IsScalar result }
{
    if is_private(pointer) {
        return 0xE000 + (pointer as u32 - 8836);
    }
    jis0208_at(pointer)
}
