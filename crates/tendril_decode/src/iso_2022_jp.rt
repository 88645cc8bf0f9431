//! ISO-2022-JP: the set of characters and the bytes of a sequence that isn't complete are kept between slices.
ghost use Rattle.std.specs.Prelude.{◌≡◌, ◌+◌, ◌*◌, ◌-◌, ◌<◌, ◌≤◌, [], IfSome, length, take, drop, true, false};
ghost use Rattle.tendril_decode.specs.declared.iso_2022_jp.Iso2022Jp.{Iso2022Jp};
ghost use Rattle.tendril_decode.specs.Characters.{IsCharacter};
ghost use Rattle.tendril_decode.specs.Machines.{DecodesTo, broken_marks};
ghost use Rattle.tendril_decode.specs.Steps.{IsStep};
ghost use Rattle.tendril_decode.specs.Iso2022Jp.{is_escape_second, is_fit, is_jis, is_set_fit};
ghost use Rattle.tendril_decode.specs.Iso2022Jp.{iso_2022_jp, put_back_as, resting, single_code, weight};

mod codes;

use crate::characters::Character;
use crate::decode::Decode;
use crate::part::Part;
use crate::steps::{Step, Steps, decode_steps};
use codes::{escaped, is_escape_second, is_jis, jis_code, single_code};
use tendril_fmt::fmt::put_code_point;

// The byte that begins an escape sequence.
const ESCAPE: u8 = 0x1B;

/// The state between two slices of ISO-2022-JP.
#[derive(Clone, Copy, Debug, PartialEq, Eq)]
pub struct Iso2022Jp {
    // The set that the last escape sequence selected.
    set: Set,
    // The bytes of a sequence that isn't complete.
    kept: Kept,
    // Whether an escape sequence was read and nothing after it. Another one is an error then.
    fresh: bool,
}

#[derive(Clone, Copy, Debug, PartialEq, Eq)]
enum Set {
    Ascii,
    Roman,
    Katakana,
    Jis0208,
}

#[derive(Clone, Copy, Debug, PartialEq, Eq)]
enum Kept {
    Nothing,
    Lead(u8),
    Escape,
    EscapeAnd(u8),
    // The character of the second byte of a malformed escape sequence, which isn't written yet.
    Owed(u16),
}

impl Iso2022Jp {
    /// The state at the start of a stream.
    pub fn new() -> Self
        ensures { result ≡ (iso_2022_jp).start }
    {
        Iso2022Jp {
            set: Set::Ascii,
            kept: Kept::Nothing,
            fresh: false,
        }
    }

    // Takes a byte where nothing is kept.
    fn step_plain(&mut self, byte: u8) -> Step
        requires { self.old.kept ≡ Kept.Nothing }
        ensures fits { is_fit self.new ≡ true }
        ensures step { IsStep iso_2022_jp weight self.old byte self.new result }
    {
        if byte == ESCAPE {
            self.kept = Kept::Escape;
            return Step::Nothing;
        }
        self.fresh = false;
        if matches!(self.set, Set::Jis0208) && is_jis(byte) {
            self.kept = Kept::Lead(byte);
            return Step::Nothing;
        }
        match single_code(self.set, byte) {
            Some(code) => Step::Scalar(code as u32),
            None => Step::Broken,
        }
    }

    // Takes a byte after a lead.
    fn step_trail(&mut self, lead: u8, byte: u8) -> Step
        requires kept { self.old.kept ≡ Kept.Lead lead }
        requires lead { is_jis lead ≡ true }
        ensures fits { is_fit self.new ≡ true }
        ensures step { IsStep iso_2022_jp weight self.old byte self.new result }
    {
        if byte == ESCAPE {
            self.kept = Kept::Escape;
            return Step::Broken;
        }
        self.kept = Kept::Nothing;
        let code = jis_code(lead, byte);
        if code == 0 {
            Step::Broken
        } else {
            Step::Scalar(code)
        }
    }

    // Takes a byte after an escape byte.
    fn step_second(&mut self, byte: u8) -> Step
        requires { self.old.kept ≡ Kept.Escape }
        ensures fits { is_fit self.new ≡ true }
        ensures step { IsStep iso_2022_jp weight self.old byte self.new result }
    {
        if is_escape_second(byte) {
            self.kept = Kept::EscapeAnd(byte);
            return Step::Nothing;
        }
        self.kept = Kept::Nothing;
        self.fresh = false;
        Step::BrokenBefore
    }

    // Takes a byte after two bytes of an escape sequence.
    fn step_third(&mut self, second: u8, byte: u8) -> Step
        requires kept { self.old.kept ≡ Kept.EscapeAnd second }
        requires second { is_escape_second second ≡ true }
        ensures fits { is_fit self.new ≡ true }
        ensures step { IsStep iso_2022_jp weight self.old byte self.new result }
    {
        let Some(set) = escaped(second, byte) else {
            self.kept = put_back(self.set, second);
            self.fresh = false;
            return Step::BrokenBefore;
        };
        let again = self.fresh;
        self.set = set;
        self.kept = Kept::Nothing;
        self.fresh = true;
        if again { Step::Broken } else { Step::Nothing }
    }
}

impl Steps for Iso2022Jp {
    ghost use Rattle.tendril_decode.specs.Iso2022Jp.{is_fit, iso_2022_jp, weight as kept_weight, weight_few};

    ghost machine = { iso_2022_jp };

    ghost fits = { λ s. is_fit s };

    ghost weight = { λ s. kept_weight s };

    ghost few = { λ s. weight_few s };

    fn step(&mut self, byte: u8) -> Step {
        match self.kept {
            Kept::Nothing => self.step_plain(byte),
            Kept::Lead(lead) => self.step_trail(lead, byte),
            Kept::Escape => self.step_second(byte),
            Kept::EscapeAnd(second) => self.step_third(second, byte),
            Kept::Owed(code) => {
                self.kept = Kept::Nothing;
                Step::Owed(code as u32)
            }
        }
    }

    fn run(&self, input: &[u8], out: &mut [u8], from: usize, start: usize) -> Part {
        if !self.fresh && self.is_complete() {
            return decode_set(self.set, input, out, from, start);
        }
        Part {
            read: from,
            written: start,
            broken: false,
        }
    }
}

impl Decode for Iso2022Jp {
    ghost use Rattle.tendril_decode.specs.Iso2022Jp.{is_fit, iso_2022_jp, weight as kept_weight, weight_few};

    ghost machine = { iso_2022_jp };

    ghost fits = { λ s. is_fit s };

    ghost weight = { λ s. kept_weight s };

    ghost few = { λ s. weight_few s };

    fn is_complete(&self) -> bool {
        matches!(self.kept, Kept::Nothing)
    }

    fn end(&mut self, out: &mut [u8]) -> Part {
        match self.kept {
            Kept::Nothing => Part::empty(false),
            Kept::Lead(_) | Kept::Escape => {
                self.kept = Kept::Nothing;
                Part::empty(true)
            }
            Kept::EscapeAnd(second) => {
                self.kept = put_back(self.set, second);
                Part::empty(true)
            }
            Kept::Owed(code) => {
                self.kept = Kept::Nothing;
                Part {
                    read: 0,
                    written: put_code_point(out, 0, code as u32),
                    broken: false,
                }
            }
        }
    }

    fn decode(&mut self, input: &[u8], out: &mut [u8]) -> Part {
        decode_steps(self, input, out)
    }
}

// Decodes characters of a set from an offset on, and writes from another offset on, where nothing is kept.
fn decode_set(set: Set, input: &[u8], out: &mut [u8], from: usize, start: usize) -> Part
    requires within { from ≤ length input.now }
    requires room { start + 3 * (length input.now - from) ≤ length out.old }
    ensures from { from ≤ result.read }
    ensures read { result.read ≤ length input.now }
    ensures written { result.written ≤ start + 3 * (result.read - from) }
    ensures whole { result.broken ≡ false }
    ensures decodes { (s : Iso2022Jp)
        → DecodesTo iso_2022_jp s input.now (take start out.old) [] (resting set) (drop from input.now)
        → DecodesTo iso_2022_jp s input.now (take result.written out.new) (broken_marks result.broken)
        (resting set) (drop result.read input.now) }
{
    let mut read = from;
    let mut at = start;
    while read < input.len() {
        let Some(character) = character_at(set, input, read) else {
            break;
        };
        at = put_code_point(out, at, character.code);
        read += character.len;
    }
    Part {
        read,
        written: at,
        broken: false,
    }
}

// The character of a set that begins at an offset, if no escape sequence does and the bytes are there.
#[inline(always)]
fn character_at(set: Set, input: &[u8], at: usize) -> Option<Character>
    requires { at < length input.now }
    ensures { IfSome result (λ c. IsCharacter iso_2022_jp (resting set) input.now at c.code c.len) }
{
    let byte = input[at];
    if byte == ESCAPE {
        return None;
    }
    if !matches!(set, Set::Jis0208) {
        let code = single_code(set, byte)?;
        return Some(Character {
            code: code as u32,
            len: 1,
        });
    }
    if !is_jis(byte) || at + 1 == input.len() {
        return None;
    }
    let code = jis_code(byte, input[at + 1]);
    if code == 0 {
        return None;
    }
    Some(Character { code, len: 2 })
}

// What the second byte of a malformed escape sequence is in a set: a character or a lead.
fn put_back(set: Set, second: u8) -> Kept
    requires { is_escape_second second ≡ true }
    ensures value { result ≡ put_back_as (single_code set second) second }
    ensures fits { is_set_fit result ≡ true }
{
    match single_code(set, second) {
        Some(code) => Kept::Owed(code),
        None => Kept::Lead(second),
    }
}
