//! gb18030, and GBK, which is decoded alike: the bytes of a sequence that isn't complete are kept between slices.
ghost use Rattle.std.specs.Prelude.{◌≡◌, ◌<◌, ◌≤◌, None, true};
ghost use Rattle.std.specs.Char.{IsScalar};
ghost use Rattle.tendril_decode.specs.Steps.{IsStep};
ghost use Rattle.tendril_decode.specs.Gb18030.{four_bytes_pointer, gb18030, is_digit, is_fit, is_lead, is_trail};
ghost use Rattle.tendril_decode.specs.Gb18030.{range_code, ranges_code, trail_cell, two_bytes_code, weight};

use crate::characters::{Character, Characters, run_characters};
use crate::decode::Decode;
use crate::indexes::gb18030_at;
use crate::part::Part;
use crate::steps::{Step, Steps, decode_steps};
use crate::tables::gb18030_ranges::GB18030_RANGES;
use crate::two_bytes::in_range;
use tendril_fmt::fmt::put_code_point;

/// The state between two slices of gb18030 or GBK.
#[derive(Clone, Copy, Debug, PartialEq, Eq)]
pub struct Gb18030 {
    // The second byte of a malformed sequence: a digit, which is a character by itself, and isn't written yet.
    owed: Option<u8>,
    // The bytes of a sequence that isn't complete.
    kept: Kept,
}

#[derive(Clone, Copy, Debug, PartialEq, Eq)]
enum Kept {
    Nothing,
    First(u8),
    Second(u8, u8),
    Third(u8, u8, u8),
}

impl Gb18030 {
    /// The state at the start of a stream.
    pub fn new() -> Self
        ensures { result ≡ (gb18030).start }
    {
        Gb18030 {
            owed: None,
            kept: Kept::Nothing,
        }
    }

    // Takes a byte where nothing is kept.
    fn step_at_start(&mut self, byte: u8) -> Step
        requires { self.old ≡ (gb18030).start }
        ensures fits { is_fit self.new ≡ true }
        ensures step { IsStep gb18030 weight self.old byte self.new result }
    {
        if byte < 0x80 {
            Step::Scalar(byte as u32)
        } else if byte == 0x80 {
            Step::Scalar(0x20AC)
        } else if is_lead(byte) {
            self.kept = Kept::First(byte);
            Step::Nothing
        } else {
            Step::Broken
        }
    }

    // Takes a byte after the first one of a sequence.
    fn step_after_first(&mut self, first: u8, byte: u8) -> Step
        requires kept { self.old ≡ record { owed = None; kept = Kept.First first } }
        requires lead { is_lead first ≡ true }
        ensures fits { is_fit self.new ≡ true }
        ensures step { IsStep gb18030 weight self.old byte self.new result }
    {
        if is_digit(byte) {
            self.kept = Kept::Second(first, byte);
            return Step::Nothing;
        }
        self.kept = Kept::Nothing;
        let code = two_bytes_code(first, byte);
        if code != 0 {
            Step::Scalar(code)
        } else if byte < 0x80 {
            Step::BrokenBefore
        } else {
            Step::Broken
        }
    }

    // Takes a byte after two bytes of a sequence of four.
    fn step_after_second(&mut self, first: u8, second: u8, byte: u8) -> Step
        requires kept { self.old ≡ record { owed = None; kept = Kept.Second first second } }
        requires lead { is_lead first ≡ true }
        requires digit { is_digit second ≡ true }
        ensures fits { is_fit self.new ≡ true }
        ensures step { IsStep gb18030 weight self.old byte self.new result }
    {
        if is_lead(byte) {
            self.kept = Kept::Third(first, second, byte);
            return Step::Nothing;
        }
        self.kept = Kept::Nothing;
        self.owed = Some(second);
        Step::BrokenBefore
    }

    // Takes a byte after three bytes of a sequence of four.
    fn step_after_third(&mut self, first: u8, second: u8, third: u8, byte: u8) -> Step
        requires kept { self.old ≡ record { owed = None; kept = Kept.Third first second third } }
        requires lead { is_lead first ≡ true }
        requires digit { is_digit second ≡ true }
        requires third { is_lead third ≡ true }
        ensures fits { is_fit self.new ≡ true }
        ensures step { IsStep gb18030 weight self.old byte self.new result }
    {
        if !is_digit(byte) {
            self.kept = Kept::First(third);
            self.owed = Some(second);
            return Step::BrokenBefore;
        }
        self.kept = Kept::Nothing;
        let code = ranges_code(four_bytes_pointer(first, second, third, byte));
        if code == 0 {
            Step::Broken
        } else {
            Step::Scalar(code)
        }
    }
}

impl Characters for Gb18030 {
    ghost use Rattle.tendril_decode.specs.Gb18030.{gb18030, keeps_ascii};

    ghost machine = { gb18030 };

    ghost nothing = { (gb18030).start };

    ghost ascii = { keeps_ascii };

    // Sequences of four bytes are rare, and are taken byte by byte.
    #[inline(always)]
    fn character_at(input: &[u8], at: usize) -> Option<Character> {
        let byte = input[at];
        if !is_lead(byte) || at + 1 == input.len() {
            return None;
        }
        let code = two_bytes_code(byte, input[at + 1]);
        if code == 0 {
            return None;
        }
        Some(Character { code, len: 2 })
    }
}

impl Steps for Gb18030 {
    ghost use Rattle.tendril_decode.specs.Gb18030.{gb18030, is_fit, weight as kept_weight, weight_few};

    ghost machine = { gb18030 };

    ghost fits = { λ s. is_fit s };

    ghost weight = { λ s. kept_weight s };

    ghost few = { λ s. weight_few s };

    fn step(&mut self, byte: u8) -> Step {
        if let Some(digit) = self.owed {
            self.owed = None;
            return Step::Owed(digit as u32);
        }
        match self.kept {
            Kept::Nothing => self.step_at_start(byte),
            Kept::First(first) => self.step_after_first(first, byte),
            Kept::Second(first, second) => self.step_after_second(first, second, byte),
            Kept::Third(first, second, third) => self.step_after_third(first, second, third, byte),
        }
    }

    fn run(&self, input: &[u8], out: &mut [u8], from: usize, start: usize) -> Part {
        if self.is_complete() {
            return run_characters::<Self>(input, out, from, start);
        }
        Part {
            read: from,
            written: start,
            broken: false,
        }
    }
}

impl Decode for Gb18030 {
    ghost use Rattle.tendril_decode.specs.Gb18030.{gb18030, is_fit, weight as kept_weight, weight_few};

    ghost machine = { gb18030 };

    ghost fits = { λ s. is_fit s };

    ghost weight = { λ s. kept_weight s };

    ghost few = { λ s. weight_few s };

    fn is_complete(&self) -> bool {
        matches!((self.owed, self.kept), (None, Kept::Nothing))
    }

    fn end(&mut self, out: &mut [u8]) -> Part {
        let written = match self.owed {
            Some(digit) => put_code_point(out, 0, digit as u32),
            None => 0,
        };
        let broken = !matches!(self.kept, Kept::Nothing);
        *self = Gb18030::new();
        Part {
            read: 0,
            written,
            broken,
        }
    }

    fn decode(&mut self, input: &[u8], out: &mut [u8]) -> Part {
        decode_steps(self, input, out)
    }
}

// Whether a byte begins a sequence.
#[inline(always)]
fn is_lead(byte: u8) -> bool
    ensures { result ≡ is_lead byte }
{
    in_range(0x81, 0xFE, byte)
}

// Whether a byte is the second or fourth one of a sequence of four.
#[inline(always)]
fn is_digit(byte: u8) -> bool
    ensures { result ≡ is_digit byte }
{
    in_range(0x30, 0x39, byte)
}

// The character of two bytes, or 0.
#[inline(always)]
fn two_bytes_code(first: u8, second: u8) -> u32
    requires { is_lead first ≡ true }
    ensures value { result ≡ two_bytes_code first second }
    ensures scalar { IsScalar result }
    ensures small { result < 0x1_0000 }
{
    if !is_trail(second) {
        return 0;
    }
    gb18030_at((first as usize - 0x81) * 190 + trail_cell(second))
}

// Whether a byte is the second one of two.
#[inline(always)]
fn is_trail(byte: u8) -> bool
    ensures { result ≡ is_trail byte }
{
    in_range(0x40, 0x7E, byte) || in_range(0x80, 0xFE, byte)
}

// The place of a second byte in its row.
#[inline(always)]
fn trail_cell(byte: u8) -> usize
    requires { is_trail byte ≡ true }
    ensures value { result ≡ trail_cell byte }
    ensures few { result < 190 }
{
    if byte < 0x7F {
        byte as usize - 0x40
    } else {
        byte as usize - 0x41
    }
}

// The pointer of four bytes.
fn four_bytes_pointer(first: u8, second: u8, third: u8, fourth: u8) -> u32
    requires first { is_lead first ≡ true }
    requires second { is_digit second ≡ true }
    requires third { is_lead third ≡ true }
    requires fourth { is_digit fourth ≡ true }
    ensures { result ≡ four_bytes_pointer first second third fourth }
{
    (first as u32 - 0x81) * 12600
        + (second as u32 - 0x30) * 1260
        + (third as u32 - 0x81) * 10
        + (fourth as u32 - 0x30)
}

// The character of a pointer by the ranges, or 0.
fn ranges_code(pointer: u32) -> u32
    ensures value { result ≡ ranges_code pointer }
    ensures scalar { IsScalar result }
{
    if (39419 < pointer && pointer < 189000) || 1237575 < pointer {
        return 0;
    }
    if pointer == 7457 {
        return 0xE7C7;
    }
    range_code(pointer)
}

// The character of a pointer by the last range that begins at it or before.
fn range_code(pointer: u32) -> u32
    requires { pointer ≤ 1237575 }
    ensures value { result ≡ range_code 0 GB18030_RANGES pointer }
    ensures scalar { IsScalar result }
{
    let after = GB18030_RANGES.partition_point(|range| range.0 <= pointer);
    let (first, code) = GB18030_RANGES[after - 1];
    code + (pointer - first)
}
