//! Decodes the encodings of one byte a character, by packed entries: no branch depends on a character's length.
ghost use Rattle.std.specs.Prelude.{◌≡◌, ◌+◌, ◌-◌, ◌*◌, ◌/◌, ◌^◌, ◌<◌, ◌≤◌, ◌++◌, [], length, take, drop, true, false};
ghost use Rattle.std.specs.Int.{to_le_bytes, w32};
ghost use Rattle.tendril_decode.specs.Machines.{broken_marks};
ghost use Rattle.tendril_decode.specs.Packed.{ArePacked};
ghost use Rattle.tendril_decode.specs.Single.{DecodesIn, table_of};

use crate::ascii::{block_at, count_others, put_block};
use crate::part::Part;
use crate::single_byte::SingleByte;
use tendril_fmt::blocks::{BLOCK, is_ascii, leading_ascii, put_run};

// How many bytes of a block may be no ASCII, so that the ASCII bytes between them are decoded at once.
const FEW: u32 = 4;

// How many fronts are decoded without a test of what follows.
const FRONTS: usize = 4;

// Decodes bytes up to their end or through the first that has no character, and writes the UTF-8 of those before.
pub(crate) fn decode_packed(
    encoding: SingleByte,
    entries: &[u32; 256],
    input: &[u8],
    out: &mut [u8],
) -> Part
    requires packed { ArePacked (table_of encoding) entries.now }
    requires room { 3 * length input.now + 1 ≤ length out.old }
    ensures read { result.read ≤ length input.now }
    ensures written { result.written ≤ length out.new }
    ensures decodes { DecodesIn encoding input.now (take result.written out.new) (broken_marks result.broken)
        (drop result.read input.now) }
    ensures more { 0 < length input.now → 0 < result.read }
    ensures whole { result.broken ≡ false → result.read ≡ length input.now }
{
    let mut read = 0;
    let mut at = 0;
    while input.len() - read >= FRONTS * BLOCK {
        let part = decode_some(encoding, entries, input, out, read, at);
        if part.broken {
            return part;
        }
        read = part.read;
        at = part.written;
    }
    decode_few(encoding, entries, input, out, read, at, input.len() - read)
}

// Decodes a block, or several fronts: what is faster for the next bytes.
#[inline(always)]
fn decode_some(
    encoding: SingleByte,
    entries: &[u32; 256],
    input: &[u8],
    out: &mut [u8],
    from: usize,
    start: usize,
) -> Part
    requires packed { ArePacked (table_of encoding) entries.now }
    requires within { from + FRONTS * BLOCK ≤ length input.now }
    requires room { start + 3 * (FRONTS * BLOCK) + 1 ≤ length out.old }
    ensures read { result.read ≤ from + FRONTS * BLOCK }
    ensures more { from < result.read }
    ensures written { result.written ≤ start + 3 * (result.read - from) }
    ensures decodes { DecodesIn encoding input.now (take start out.old) [] (drop from input.now)
        → DecodesIn encoding input.now (take result.written out.new) (broken_marks result.broken)
        (drop result.read input.now) }
{
    let block = block_at(input, from);
    if is_ascii(block) {
        return Part {
            read: from + BLOCK,
            written: put_block(out, start, block),
            broken: false,
        };
    }
    if count_others(block) <= FEW {
        return decode_fronts(encoding, entries, input, out, from, start);
    }
    decode_few(encoding, entries, input, out, from, start, BLOCK)
}

// Decodes several fronts, one after another.
#[inline(always)]
fn decode_fronts(
    encoding: SingleByte,
    entries: &[u32; 256],
    input: &[u8],
    out: &mut [u8],
    from: usize,
    start: usize,
) -> Part
    requires packed { ArePacked (table_of encoding) entries.now }
    requires within { from + FRONTS * BLOCK ≤ length input.now }
    requires room { start + 3 * (FRONTS * BLOCK) + 1 ≤ length out.old }
    ensures read { result.read ≤ from + FRONTS * BLOCK }
    ensures more { from < result.read }
    ensures written { result.written ≤ start + 3 * (result.read - from) }
    ensures decodes { DecodesIn encoding input.now (take start out.old) [] (drop from input.now)
        → DecodesIn encoding input.now (take result.written out.new) (broken_marks result.broken)
        (drop result.read input.now) }
{
    let mut read = from;
    let mut at = start;
    for _i in 0..FRONTS {
        let front = decode_front(encoding, entries, input, out, read, at);
        if front.broken {
            return front;
        }
        read = front.read;
        at = front.written;
    }
    Part {
        read,
        written: at,
        broken: false,
    }
}

// Decodes the front of a block: the ASCII bytes that it begins with, and one byte more.
#[inline(always)]
fn decode_front(
    encoding: SingleByte,
    entries: &[u32; 256],
    input: &[u8],
    out: &mut [u8],
    from: usize,
    start: usize,
) -> Part
    requires packed { ArePacked (table_of encoding) entries.now }
    requires within { from + BLOCK ≤ length input.now }
    requires room { start + 3 * BLOCK + 1 ≤ length out.old }
    ensures read { result.read ≤ from + BLOCK }
    ensures more { from < result.read }
    ensures written { result.written ≤ start + 3 * (result.read - from) }
    ensures decodes { DecodesIn encoding input.now (take start out.old) [] (drop from input.now)
        → DecodesIn encoding input.now (take result.written out.new) (broken_marks result.broken)
        (drop result.read input.now) }
{
    let block = block_at(input, from);
    let count = leading_ascii(block).min(BLOCK - 1);
    let _end = put_block(out, start, block);
    let entry = entries[input[from + count] as usize];
    if entry >> 24 == 0 {
        return Part {
            read: from + count + 1,
            written: start + count,
            broken: true,
        };
    }
    Part {
        read: from + count + 1,
        written: put_packed(out, start + count, entry),
        broken: false,
    }
}

// Decodes some bytes from an offset on, and writes from another offset on. Inlined, so that the loop is unrolled where
// the number of bytes is a constant.
#[inline(always)]
fn decode_few(
    encoding: SingleByte,
    entries: &[u32; 256],
    input: &[u8],
    out: &mut [u8],
    from: usize,
    start: usize,
    count: usize,
) -> Part
    requires packed { ArePacked (table_of encoding) entries.now }
    requires within { from + count ≤ length input.now }
    requires room { start + 3 * count + 1 ≤ length out.old }
    ensures read { result.read ≤ from + count }
    ensures more { result.broken ≡ true → from < result.read }
    ensures written { result.written ≤ start + 3 * (result.read - from) }
    ensures decodes { DecodesIn encoding input.now (take start out.old) [] (drop from input.now)
        → DecodesIn encoding input.now (take result.written out.new) (broken_marks result.broken)
        (drop result.read input.now) }
    ensures whole { result.broken ≡ false → result.read ≡ from + count }
{
    let mut at = start;
    for i in 0..count {
        let entry = entries[input[from + i] as usize];
        if entry >> 24 == 0 {
            return Part {
                read: from + i + 1,
                written: at,
                broken: true,
            };
        }
        at = put_packed(out, at, entry);
    }
    Part {
        read: from + count,
        written: at,
        broken: false,
    }
}

// Writes four bytes at an offset, and returns the offset after those that count.
#[inline(always)]
fn put_packed(out: &mut [u8], at: usize, entry: u32) -> usize
    requires few { entry / 2 ^ 24 ≤ 3 }
    requires room { at + 4 ≤ length out.old }
    ensures place { result ≡ at + entry / 2 ^ 24 }
    ensures bytes { take result out.new ≡ take at out.old ++ take (entry / 2 ^ 24) (to_le_bytes w32 entry) }
{
    let bytes = entry.to_le_bytes();
    let _end = put_run(out, at, &bytes);
    at + (entry >> 24) as usize
}
