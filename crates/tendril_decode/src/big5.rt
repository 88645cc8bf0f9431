//! Big5.
ghost use Rattle.std.specs.Prelude.{◌≡◌, ◌<◌, true};
ghost use Rattle.tendril_decode.specs.Big5.{big5_at, big5_cell, is_big5_trail};
ghost use Rattle.tendril_decode.specs.TwoBytes.{FitsPair};

use crate::indexes::big5_at as entry_at;
use crate::two_bytes::{First, LeadTrail, Pair, TwoBytes, in_range, pair_of};

/// The leads and trails of Big5.
#[derive(Clone, Copy, PartialEq, Eq, Debug)]
pub struct Big5Pairs;

/// The state between two slices of a stream in Big5.
pub type Big5 = TwoBytes<Big5Pairs>;

impl LeadTrail for Big5Pairs {
    ghost use Rattle.tendril_decode.specs.Big5.{big5_first, big5_pair};

    ghost first = { big5_first };

    ghost pair = { big5_pair };

    #[inline(always)]
    fn first(byte: u8) -> First {
        if in_range(0x81, 0xFE, byte) {
            First::Lead
        } else {
            First::Malformed
        }
    }

    #[inline(always)]
    fn pair(lead: u8, trail: u8) -> Pair {
        if !is_trail(trail) {
            return Pair::Absent;
        }
        let row = (lead as usize - 0x81) * 157;
        pair_at(row + cell_of(trail))
    }
}

// Whether a byte is the second of two.
#[inline(always)]
fn is_trail(byte: u8) -> bool
    ensures { result ≡ is_big5_trail byte }
{
    in_range(0x40, 0x7E, byte) || in_range(0xA1, 0xFE, byte)
}

// The place of a trail in a row.
#[inline(always)]
fn cell_of(trail: u8) -> usize
    requires { is_big5_trail trail ≡ true }
    ensures value { result ≡ big5_cell trail }
    ensures few { result < 157 }
{
    if trail < 0x7F {
        trail as usize - 0x40
    } else {
        trail as usize - 0x62
    }
}

// What a pointer is: four pointers are two characters.
#[inline(always)]
fn pair_at(pointer: usize) -> Pair
    requires { pointer < 19782 }
    ensures value { result ≡ big5_at pointer }
    ensures fits { FitsPair result }
{
    if pointer == 1133 {
        return Pair::Two(0xCA, 0x304);
    }
    if pointer == 1135 {
        return Pair::Two(0xCA, 0x30C);
    }
    if pointer == 1164 {
        return Pair::Two(0xEA, 0x304);
    }
    if pointer == 1166 {
        return Pair::Two(0xEA, 0x30C);
    }
    pair_of(entry_at(pointer))
}
