//! Encodings of one or two bytes a character: a lead is kept between two slices.
ghost use Rattle.std.specs.Prelude.{◌≡◌};
ghost use Rattle.std.specs.Char.{IsScalar};
ghost use Rattle.tendril_decode.specs.TwoBytes.{FitsPair, in_range, pair_of, two_bytes};

use crate::characters::{Character, Characters, run_characters};
use crate::decode::Decode;
use crate::part::Part;
use crate::steps::{Step, Steps, decode_steps};
use std::marker::PhantomData;

/// What a byte from 0x80 on is where no lead is kept.
#[derive(Clone, Copy, PartialEq, Eq, Debug)]
pub enum First {
    /// A character of one byte.
    Character(u32),
    /// The first of two bytes.
    Lead,
    /// No character begins with it.
    Malformed,
}

/// What a lead and a trail are.
#[derive(Clone, Copy, PartialEq, Eq, Debug)]
pub enum Pair {
    /// A character.
    One(u32),
    /// Two characters.
    Two(u32, u32),
    /// They are no character.
    Absent,
}

impl Pair {
    ghost use Rattle.std.specs.Prelude.{◌≡◌};
    ghost use Rattle.tendril_decode.specs.TwoBytes.{step_of};

    // What the trail gives. If it is no trail but ASCII, it isn't read.
    #[inline(always)]
    pub(crate) fn step(self, trail: u8) -> Step
        ensures { result ≡ step_of self trail }
    {
        match self {
            Pair::One(code) => Step::Scalar(code),
            Pair::Two(first, second) => Step::Two(first, second),
            Pair::Absent => {
                if trail < 0x80 {
                    Step::BrokenBefore
                } else {
                    Step::Broken
                }
            }
        }
    }
}

// Whether a byte is in a range.
#[inline(always)]
pub(crate) fn in_range(first: u8, last: u8, byte: u8) -> bool
    ensures { result ≡ in_range first last byte }
{
    first <= byte && byte <= last
}

// What two bytes are by the entry of an index.
#[inline(always)]
pub(crate) fn pair_of(code: u32) -> Pair
    requires { IsScalar code }
    ensures value { result ≡ pair_of code }
    ensures fits { FitsPair result }
{
    if code == 0 {
        Pair::Absent
    } else {
        Pair::One(code)
    }
}

/// An encoding of one or two bytes a character. ASCII bytes that follow no lead are themselves.
pub trait LeadTrail: Copy {
    ghost use Rattle.std.specs.Prelude.{◌≡◌, ℕ, true};
    ghost use Rattle.tendril_decode.specs.TwoBytes.{FitsFirst, FitsPair, is_lead};
    ghost use Rattle.tendril_decode.specs.declared.two_bytes.First.{First};
    ghost use Rattle.tendril_decode.specs.declared.two_bytes.Pair.{Pair};

    /// What a byte is.
    ghost first: { ℕ → First };

    /// What a lead and a trail are.
    ghost pair: { ℕ → ℕ → Pair };

    /// Returns what a byte is.
    fn first(byte: u8) -> First
        ensures value { result ≡ first byte }
        ensures fits { FitsFirst result };

    /// Returns what a lead and a trail are.
    fn pair(lead: u8, trail: u8) -> Pair
        requires { is_lead (first lead) ≡ true }
        ensures value { result ≡ pair lead trail }
        ensures fits { FitsPair result };
}

/// The state between two slices of a stream in an encoding of one or two bytes a character.
#[derive(Clone, Copy, PartialEq, Eq, Debug)]
pub struct TwoBytes<E> {
    // A lead whose trail hasn't come.
    lead: Option<u8>,
    encoding: PhantomData<E>,
}

impl<E: LeadTrail> TwoBytes<E> {
    /// Returns the state at the start of a stream.
    pub fn new() -> Self
        ensures { result ≡ (two_bytes E.first E.pair).start }
    {
        TwoBytes {
            lead: None,
            encoding: PhantomData,
        }
    }
}

impl<E: LeadTrail> Characters for TwoBytes<E> {
    ghost use Rattle.tendril_decode.specs.TwoBytes.{keeps_ascii, nothing_kept, two_bytes};

    ghost machine = { two_bytes E.first E.pair };

    ghost nothing = { nothing_kept };

    ghost ascii = { keeps_ascii E.first E.pair };

    #[inline(always)]
    fn character_at(input: &[u8], at: usize) -> Option<Character> {
        let byte = input[at];
        match E::first(byte) {
            First::Character(code) => Some(Character { code, len: 1 }),
            First::Lead => {
                if at + 1 == input.len() {
                    return None;
                }
                match E::pair(byte, input[at + 1]) {
                    Pair::One(code) => Some(Character { code, len: 2 }),
                    _ => None,
                }
            }
            First::Malformed => None,
        }
    }
}

impl<E: LeadTrail> Steps for TwoBytes<E> {
    ghost use Rattle.tendril_decode.specs.TwoBytes.{is_fit, two_bytes, weight as kept_weight, weight_few};

    ghost machine = { two_bytes E.first E.pair };

    ghost fits = { λ s. is_fit E.first s };

    ghost weight = { λ s. kept_weight s };

    ghost few = { λ s. weight_few s };

    fn step(&mut self, byte: u8) -> Step {
        if let Some(lead) = self.lead {
            self.lead = None;
            return E::pair(lead, byte).step(byte);
        }
        if byte < 0x80 {
            return Step::Scalar(byte as u32);
        }
        match E::first(byte) {
            First::Character(code) => Step::Scalar(code),
            First::Lead => {
                self.lead = Some(byte);
                Step::Nothing
            }
            First::Malformed => Step::Broken,
        }
    }

    fn run(&self, input: &[u8], out: &mut [u8], from: usize, start: usize) -> Part {
        if self.lead.is_none() {
            return run_characters::<Self>(input, out, from, start);
        }
        Part {
            read: from,
            written: start,
            broken: false,
        }
    }
}

impl<E: LeadTrail> Decode for TwoBytes<E> {
    ghost use Rattle.tendril_decode.specs.TwoBytes.{is_fit, two_bytes, weight as kept_weight, weight_few};

    ghost machine = { two_bytes E.first E.pair };

    ghost fits = { λ s. is_fit E.first s };

    ghost weight = { λ s. kept_weight s };

    ghost few = { λ s. weight_few s };

    fn is_complete(&self) -> bool {
        self.lead.is_none()
    }

    fn end(&mut self, _out: &mut [u8]) -> Part {
        let complete = self.is_complete();
        self.lead = None;
        Part::empty(!complete)
    }

    fn decode(&mut self, input: &[u8], out: &mut [u8]) -> Part {
        decode_steps(self, input, out)
    }
}
