//! Decoders of slices of a stream.

use crate::part::Part;

/// The state of a decoder between two slices of a stream. What it decodes is a machine over bytes.
pub trait Decode: Drop {
    ghost use Rattle.std.specs.Prelude.{◌≡◌, ◌+◌, ◌*◌, ◌<◌, ◌≤◌, ◌⊎◌, ℕ, Bool, true, length, take, drop};
    ghost use Rattle.tendril_decode.specs.Machines.{Machine, DecodesTo, EndsTo, broken_marks, tells_nothing};

    /// The machine.
    ghost machine: { Machine Self };

    /// The states that occur.
    ghost fits: { Self → Bool };

    /// How many steps may be made in a state without reading a byte: at most 4.
    ghost weight: { Self → ℕ };

    ghost few: { (s : Self) → weight s ≤ 4 };

    /// Whether the end of the stream outputs nothing.
    fn is_complete(&self) -> bool
        ensures { result ≡ tells_nothing ((machine).ends self.now) };

    /// Decodes the end of the stream up to its first malformed sequence, and writes the UTF-8 of what is before that.
    /// After a malformed sequence, the end is still to be decoded.
    fn end(&mut self, out: &mut [u8]) -> Part
        requires fits { fits self.old ≡ true }
        requires room { 4 ≤ length out.old }
        ensures fits { fits self.new ≡ true }
        ensures written { result.written ≤ length out.new }
        ensures ends { EndsTo machine self.old (take result.written out.new) result.broken self.new };

    /// Decodes bytes up to their end or through a malformed sequence, and writes the UTF-8 of what is before that.
    fn decode(&mut self, input: &[u8], out: &mut [u8]) -> Part
        requires fits { fits self.old ≡ true }
        requires room { 3 * length input.now + 4 ≤ length out.old }
        ensures fits { fits self.new ≡ true }
        ensures read { result.read ≤ length input.now }
        ensures written { result.written ≤ length out.new }
        ensures decodes { DecodesTo machine self.old input.now (take result.written out.new)
            (broken_marks result.broken)
            self.new (drop result.read input.now) }
        ensures less { 0 < length input.now → (0 < result.read) ⊎ (weight self.new < weight self.old) };
}
