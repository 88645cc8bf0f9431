//! EUC-JP: characters of one, two or three bytes.
ghost use Rattle.std.specs.Prelude.{◌≡◌, IfSome};
ghost use Rattle.tendril_decode.specs.EucJp.{are_cells, begins_jis0212, is_cell, is_jp_lead, is_katakana};
ghost use Rattle.tendril_decode.specs.EucJp.{jis0212_pair, jp_pair};
ghost use Rattle.tendril_decode.specs.TwoBytes.{FitsPair};
ghost use Rattle.tendril_decode.specs.declared.two_bytes.Pair.TheVariants.{One};

use crate::characters::{Character, Characters, run_characters};
use crate::decode::Decode;
use crate::indexes::{jis0208_at, jis0212_at};
use crate::part::Part;
use crate::steps::{Step, Steps, decode_steps};
use crate::two_bytes::{Pair, in_range, pair_of};

/// The state between two slices of a stream in EUC-JP.
#[derive(Clone, Copy, PartialEq, Eq, Debug)]
pub enum EucJp {
    /// Nothing is kept.
    Start,
    /// The first of two or three bytes.
    Lead(u8),
    /// The second of three bytes.
    SecondLead(u8),
}

impl EucJp {
    ghost use Rattle.std.specs.Prelude.{◌≡◌};
    ghost use Rattle.tendril_decode.specs.EucJp.{euc_jp};

    /// Returns the state at the start of a stream.
    pub fn new() -> Self
        ensures { result ≡ (euc_jp).start }
    {
        EucJp::Start
    }
}

impl Characters for EucJp {
    ghost use Rattle.tendril_decode.specs.EucJp.{euc_jp, jp_keeps_ascii};
    ghost use Rattle.tendril_decode.specs.declared.euc_jp.EucJp.TheVariants.{Start};

    ghost machine = { euc_jp };

    ghost nothing = { Start };

    ghost ascii = { jp_keeps_ascii };

    #[inline(always)]
    fn character_at(input: &[u8], at: usize) -> Option<Character> {
        let lead = input[at];
        let left = input.len() - at;
        if !is_lead(lead) || left < 2 {
            return None;
        }
        let trail = input[at + 1];
        if begins_jis0212(lead, trail) {
            if left < 3 {
                return None;
            }
            return character_of(jis0212_pair(trail, input[at + 2]), 3);
        }
        character_of(pair(lead, trail), 2)
    }
}

impl Steps for EucJp {
    ghost use Rattle.std.specs.Prelude.{true};
    ghost use Rattle.tendril_decode.specs.EucJp.{euc_jp, jp_weight, jp_weight_few};

    ghost machine = { euc_jp };

    ghost fits = { λ _. true };

    ghost weight = { λ s. jp_weight s };

    ghost few = { λ s. jp_weight_few s };

    fn step(&mut self, byte: u8) -> Step {
        let kept = *self;
        *self = EucJp::Start;
        match kept {
            EucJp::Start => {
                if byte < 0x80 {
                    return Step::Scalar(byte as u32);
                }
                if !is_lead(byte) {
                    return Step::Broken;
                }
                *self = EucJp::Lead(byte);
                Step::Nothing
            }
            EucJp::Lead(lead) => {
                if begins_jis0212(lead, byte) {
                    *self = EucJp::SecondLead(byte);
                    return Step::Nothing;
                }
                pair(lead, byte).step(byte)
            }
            EucJp::SecondLead(lead) => jis0212_pair(lead, byte).step(byte),
        }
    }

    fn run(&self, input: &[u8], out: &mut [u8], from: usize, start: usize) -> Part {
        if let EucJp::Start = *self {
            return run_characters::<Self>(input, out, from, start);
        }
        Part {
            read: from,
            written: start,
            broken: false,
        }
    }
}

impl Decode for EucJp {
    ghost use Rattle.std.specs.Prelude.{true};
    ghost use Rattle.tendril_decode.specs.EucJp.{euc_jp, jp_weight, jp_weight_few};

    ghost machine = { euc_jp };

    ghost fits = { λ _. true };

    ghost weight = { λ s. jp_weight s };

    ghost few = { λ s. jp_weight_few s };

    fn is_complete(&self) -> bool {
        match self {
            EucJp::Start => true,
            EucJp::Lead(_) | EucJp::SecondLead(_) => false,
        }
    }

    fn end(&mut self, _out: &mut [u8]) -> Part {
        let complete = self.is_complete();
        *self = EucJp::Start;
        Part::empty(!complete)
    }

    fn decode(&mut self, input: &[u8], out: &mut [u8]) -> Part {
        decode_steps(self, input, out)
    }
}

// Whether a byte is the first of two or three.
#[inline(always)]
fn is_lead(byte: u8) -> bool
    ensures { result ≡ is_jp_lead byte }
{
    in_range(0x8E, 0x8F, byte) || is_cell(byte)
}

// Whether a byte is one of a row or a cell.
#[inline(always)]
fn is_cell(byte: u8) -> bool
    ensures { result ≡ is_cell byte }
{
    in_range(0xA1, 0xFE, byte)
}

// Whether two bytes are a row and a cell.
#[inline(always)]
fn are_cells(row: u8, cell: u8) -> bool
    ensures { result ≡ are_cells row cell }
{
    is_cell(row) && is_cell(cell)
}

// Whether two bytes are halfwidth katakana.
#[inline(always)]
fn is_katakana(lead: u8, trail: u8) -> bool
    ensures { result ≡ is_katakana lead trail }
{
    lead == 0x8E && in_range(0xA1, 0xDF, trail)
}

// Whether two bytes are the first of three.
#[inline(always)]
fn begins_jis0212(lead: u8, second: u8) -> bool
    ensures { result ≡ begins_jis0212 lead second }
{
    lead == 0x8F && is_cell(second)
}

// What two bytes are.
#[inline(always)]
fn pair(lead: u8, trail: u8) -> Pair
    ensures value { result ≡ jp_pair lead trail }
    ensures fits { FitsPair result }
{
    if is_katakana(lead, trail) {
        return Pair::One(0xFF61 + (trail as u32 - 0xA1));
    }
    if !are_cells(lead, trail) {
        return Pair::Absent;
    }
    let pointer = (lead as usize - 0xA1) * 94 + (trail as usize - 0xA1);
    pair_of(jis0208_at(pointer))
}

// What two bytes after 0x8F are.
#[inline(always)]
fn jis0212_pair(row: u8, cell: u8) -> Pair
    ensures value { result ≡ jis0212_pair row cell }
    ensures fits { FitsPair result }
{
    if !are_cells(row, cell) {
        return Pair::Absent;
    }
    let pointer = (row as usize - 0xA1) * 94 + (cell as usize - 0xA1);
    pair_of(jis0212_at(pointer))
}

// The one character that some bytes are.
#[inline(always)]
fn character_of(pair: Pair, len: usize) -> Option<Character>
    ensures { IfSome result (λ c. (pair ≡ One c.code) × (c.len ≡ len)) }
{
    match pair {
        Pair::One(code) => Some(Character { code, len }),
        Pair::Two(_, _) | Pair::Absent => None,
    }
}
