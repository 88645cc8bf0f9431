//! Decoders that take one byte at a time where they can't take several at once.
ghost use Rattle.std.specs.Prelude.{◌≡◌, ◌+◌, ◌*◌, ◌<◌, ◌≤◌, ◌⊎◌, length, take, drop, true};
ghost use Rattle.tendril_decode.specs.Machines.{DecodesTo, broken_marks};

use crate::part::Part;
use tendril_fmt::fmt::put_code_point;

/// What a byte gives. The byte is read, but for the last two.
#[derive(Clone, Copy)]
pub enum Step {
    /// No output yet.
    Nothing,
    /// A character.
    Scalar(u32),
    /// Two characters.
    Two(u32, u32),
    /// A malformed sequence, which the byte ends.
    Broken,
    /// A malformed sequence before the byte, which isn't read.
    BrokenBefore,
    /// A character of the bytes before. The byte isn't read.
    Owed(u32),
}

/// A decoder that takes one byte at a time, or several at once.
pub trait Steps: Drop {
    ghost use Rattle.std.specs.Prelude.{◌≡◌, ◌+◌, ◌-◌, ◌*◌, ◌<◌, ◌≤◌, ℕ, Bool, true, [], length, take, drop};
    ghost use Rattle.tendril_decode.specs.Machines.{Machine, DecodesTo, broken_marks};
    ghost use Rattle.tendril_decode.specs.Steps.{IsStep};

    /// The machine.
    ghost machine: { Machine Self };

    /// The states that occur.
    ghost fits: { Self → Bool };

    /// How many steps may be made in a state without reading a byte, and how many bytes may be written there beyond
    /// three for each byte that is read: at most 4.
    ghost weight: { Self → ℕ };

    ghost few: { (s : Self) → weight s ≤ 4 };

    /// Takes a byte.
    fn step(&mut self, byte: u8) -> Step
        requires { fits self.old ≡ true }
        ensures fits { fits self.new ≡ true }
        ensures step { IsStep machine weight self.old byte self.new result };

    /// Decodes bytes from an offset on, and writes from another offset on, as far as that can be done several bytes at
    /// once: none, or up to any byte that takes the decoder to the state that it is in.
    fn run(&self, input: &[u8], out: &mut [u8], from: usize, start: usize) -> Part
        requires fits { fits self.now ≡ true }
        requires within { from ≤ length input.now }
        requires room { start + 3 * (length input.now - from) ≤ length out.old }
        ensures from { from ≤ result.read }
        ensures read { result.read ≤ length input.now }
        ensures written { result.written ≤ start + 3 * (result.read - from) }
        ensures more { result.broken ≡ true → from < result.read }
        ensures decodes { (s : Self)
            → DecodesTo machine s input.now (take start out.old) [] self.now (drop from input.now)
            → DecodesTo machine s input.now (take result.written out.new) (broken_marks result.broken)
            self.now (drop result.read input.now) };
}

/// Decodes bytes up to their end or through a malformed sequence, and writes the UTF-8 of what is before that.
pub(crate) fn decode_steps<S: Steps>(state: &mut S, input: &[u8], out: &mut [u8]) -> Part
    requires fits { S.fits state.old ≡ true }
    requires room { 3 * length input.now + 4 ≤ length out.old }
    ensures fits { S.fits state.new ≡ true }
    ensures read { result.read ≤ length input.now }
    ensures written { result.written ≤ length out.new }
    ensures decodes { DecodesTo S.machine state.old input.now (take result.written out.new) (broken_marks result.broken)
        state.new (drop result.read input.now) }
    ensures less { 0 < length input.now → (0 < result.read) ⊎ (S.weight state.new < S.weight state.old) }
{
    let mut read = 0;
    let mut at = 0;
    loop {
        let run = state.run(input, out, read, at);
        if run.broken {
            return run;
        }
        read = run.read;
        at = run.written;
        if read == input.len() {
            return Part {
                read,
                written: at,
                broken: false,
            };
        }
        match state.step(input[read]) {
            Step::Nothing => read += 1,
            Step::Scalar(code) => {
                at = put_code_point(out, at, code);
                read += 1;
            }
            Step::Two(first, second) => {
                at = put_code_point(out, at, first);
                at = put_code_point(out, at, second);
                read += 1;
            }
            Step::Broken => {
                return Part {
                    read: read + 1,
                    written: at,
                    broken: true,
                };
            }
            Step::BrokenBefore => {
                return Part {
                    read,
                    written: at,
                    broken: true,
                };
            }
            Step::Owed(code) => at = put_code_point(out, at, code),
        }
    }
}
