//! Characters that are decoded at once, where a decoder keeps nothing.
ghost use Rattle.std.specs.Prelude.{◌≡◌, ◌+◌, ◌-◌, ◌*◌, ◌<◌, ◌≤◌, [], length, take, drop, false};
ghost use Rattle.tendril_decode.specs.Machines.{DecodesTo, broken_marks};

use crate::ascii::copy_ascii;
use crate::part::Part;
use tendril_fmt::fmt::put_code_point;

/// A character, and how many bytes it has.
#[derive(Clone, Copy)]
pub struct Character {
    /// The code point.
    pub code: u32,
    /// The number of bytes.
    pub len: usize,
}

/// A decoder that has a state in which it keeps nothing, and in which ASCII bytes are themselves.
pub trait Characters: Drop {
    ghost use Rattle.std.specs.Prelude.{◌<◌, ◌≤◌, IfSome, length, slice_index};
    ghost use Rattle.tendril_decode.specs.Characters.{IsCharacter, KeepsAscii};
    ghost use Rattle.tendril_decode.specs.Machines.{Machine};

    /// The machine.
    ghost machine: { Machine Self };

    /// The state in which nothing is kept.
    ghost nothing: { Self };

    /// Returns the character that begins at a byte that isn't ASCII, where nothing is kept. `None` is always right: the
    /// bytes are taken one by one then.
    fn character_at(input: &[u8], at: usize) -> Option<Character>
        requires within { at < length input.now }
        requires high { 0x80 ≤ slice_index input.now at }
        ensures { IfSome result (λ c. IsCharacter machine nothing input.now at c.code c.len) };

    /// ASCII bytes are themselves.
    ghost ascii: { KeepsAscii machine nothing };
}

// Decodes characters from an offset on, and writes from another offset on, where nothing is kept.
#[inline]
pub(crate) fn run_characters<S: Characters>(
    input: &[u8],
    out: &mut [u8],
    from: usize,
    start: usize,
) -> Part
    requires within { from ≤ length input.now }
    requires room { start + 3 * (length input.now - from) ≤ length out.old }
    ensures from { from ≤ result.read }
    ensures read { result.read ≤ length input.now }
    ensures written { result.written ≤ start + 3 * (result.read - from) }
    ensures whole { result.broken ≡ false }
    ensures decodes { (s : S)
        → DecodesTo S.machine s input.now (take start out.old) [] S.nothing (drop from input.now)
        → DecodesTo S.machine s input.now (take result.written out.new) (broken_marks result.broken)
        S.nothing (drop result.read input.now) }
{
    let mut read = from;
    let mut at = start;
    while read < input.len() {
        if input[read] < 0x80 {
            let count = copy_ascii(input, out, read, at);
            read += count;
            at += count;
        } else {
            let Some(character) = S::character_at(input, read) else {
                break;
            };
            at = put_code_point(out, at, character.code);
            read += character.len;
        }
    }
    Part {
        read,
        written: at,
        broken: false,
    }
}
