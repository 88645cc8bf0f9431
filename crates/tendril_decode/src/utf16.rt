//! UTF-16 in slices, in either byte order: a lead surrogate and a byte are kept between them.
ghost use Rattle.std.specs.Prelude.{◌≡◌, ◌+◌, ◌*◌, ◌-◌, ◌<◌, ◌≤◌, ℕ, [], length, take, drop, true};
ghost use Rattle.std.specs.Char.Utf16.{is_high_surrogate, is_low_surrogate, surrogate_pair_char};
ghost use Rattle.std.specs.Char.{IsScalar};
ghost use Rattle.tendril_decode.specs.declared.utf16.Utf16.{Utf16};
ghost use Rattle.tendril_decode.specs.Machines.{DecodesTo, broken_marks};
ghost use Rattle.tendril_decode.specs.Utf16.{unit_of, utf16};

mod blocks;

use crate::decode::Decode;
use crate::part::Part;
use crate::steps::{Step, Steps, decode_steps};
use blocks::decode_block;
use tendril_fmt::fmt::put_code_point;

/// The state between two slices of UTF-16. `BIG` says whether the high byte of a unit comes first.
#[derive(Clone, Copy, Debug, PartialEq, Eq)]
pub struct Utf16<const BIG: bool> {
    // A lead surrogate whose trail hasn't come.
    lead: Option<u16>,
    // The first byte of a unit whose second byte hasn't come.
    odd: Option<u8>,
}

/// UTF-16LE.
pub type Utf16Le = Utf16<false>;

/// UTF-16BE.
pub type Utf16Be = Utf16<true>;

impl<const BIG: bool> Utf16<BIG> {
    /// The state at the start of a stream.
    pub fn new() -> Self
        ensures { result ≡ (utf16 BIG).start }
    {
        Utf16 {
            lead: None,
            odd: None,
        }
    }
}

impl<const BIG: bool> Steps for Utf16<BIG> {
    ghost use Rattle.tendril_decode.specs.Utf16.{is_fit, utf16, weight as kept_weight, weight_few};

    ghost machine = { utf16 BIG };

    ghost fits = { λ s. is_fit s };

    ghost weight = { λ s. kept_weight s };

    ghost few = { λ s. weight_few s };

    fn step(&mut self, byte: u8) -> Step {
        let Some(first) = self.odd else {
            self.odd = Some(byte);
            return Step::Nothing;
        };
        let unit = unit_of(BIG, first, byte);
        if let Some(lead) = self.lead {
            self.lead = None;
            if !is_trail(unit) {
                return Step::BrokenBefore;
            }
            self.odd = None;
            return Step::Scalar(pair_code(lead, unit));
        }
        self.odd = None;
        if is_lead(unit) {
            self.lead = Some(unit);
            Step::Nothing
        } else if is_trail(unit) {
            Step::Broken
        } else {
            Step::Scalar(unit as u32)
        }
    }

    fn run(&self, input: &[u8], out: &mut [u8], from: usize, start: usize) -> Part {
        if self.is_complete() && input.len() - from >= 4 {
            return decode_units(BIG, input, out, from, start);
        }
        Part {
            read: from,
            written: start,
            broken: false,
        }
    }
}

impl<const BIG: bool> Decode for Utf16<BIG> {
    ghost use Rattle.tendril_decode.specs.Utf16.{is_fit, utf16, weight as kept_weight, weight_few};

    ghost machine = { utf16 BIG };

    ghost fits = { λ s. is_fit s };

    ghost weight = { λ s. kept_weight s };

    ghost few = { λ s. weight_few s };

    fn is_complete(&self) -> bool {
        self.lead.is_none() && self.odd.is_none()
    }

    fn end(&mut self, _out: &mut [u8]) -> Part {
        let complete = self.is_complete();
        *self = Utf16::new();
        Part::empty(!complete)
    }

    fn decode(&mut self, input: &[u8], out: &mut [u8]) -> Part {
        decode_steps(self, input, out)
    }
}

// Decodes units from an offset on, and writes from another offset on, where nothing is kept. It leaves at most three
// bytes, so that no pair is cut.
fn decode_units(big: bool, input: &[u8], out: &mut [u8], from: usize, start: usize) -> Part
    requires some { from + 4 ≤ length input.now }
    requires room { start + 3 * (length input.now - from) ≤ length out.old }
    ensures more { from < result.read }
    ensures read { result.read ≤ length input.now }
    ensures written { result.written ≤ start + 3 * (result.read - from) }
    ensures decodes { (n : ℕ) (s : Utf16 n)
        → DecodesTo (utf16 big) s input.now (take start out.old) [] (utf16 big).start (drop from input.now)
        → DecodesTo (utf16 big) s input.now (take result.written out.new) (broken_marks result.broken)
        (utf16 big).start (drop result.read input.now) }
{
    let mut read = from;
    let mut at = start;
    while input.len() - read >= 4 {
        let unit = unit_of(big, input[read], input[read + 1]);
        if is_lead(unit) {
            let next = unit_of(big, input[read + 2], input[read + 3]);
            if !is_trail(next) {
                return Part {
                    read: read + 2,
                    written: at,
                    broken: true,
                };
            }
            at = put_code_point(out, at, pair_code(unit, next));
            read += 4;
        } else if is_trail(unit) {
            return Part {
                read: read + 2,
                written: at,
                broken: true,
            };
        } else {
            let block = decode_block(big, &input[read..], out, at);
            if block.count == 0 {
                at = put_code_point(out, block.end, unit as u32);
                read += 2;
            } else {
                at = block.end;
                read += 2 * block.count;
            }
        }
    }
    Part {
        read,
        written: at,
        broken: false,
    }
}

#[inline(always)]
fn unit_of(big: bool, first: u8, second: u8) -> u16
    ensures { result ≡ unit_of big first second }
{
    if big {
        256 * first as u16 + second as u16
    } else {
        first as u16 + 256 * second as u16
    }
}

#[inline(always)]
fn is_lead(unit: u16) -> bool
    ensures { result ≡ is_high_surrogate unit }
{
    0xD800 <= unit && unit < 0xDC00
}

#[inline(always)]
fn is_trail(unit: u16) -> bool
    ensures { result ≡ is_low_surrogate unit }
{
    0xDC00 <= unit && unit < 0xE000
}

// The character of a pair.
#[inline(always)]
fn pair_code(lead: u16, trail: u16) -> u32
    requires lead { is_high_surrogate lead ≡ true }
    requires trail { is_low_surrogate trail ≡ true }
    ensures value { result ≡ surrogate_pair_char lead trail }
    ensures scalar { IsScalar result }
{
    0x1_0000 + (lead as u32 - 0xD800) * 0x400 + (trail as u32 - 0xDC00)
}
