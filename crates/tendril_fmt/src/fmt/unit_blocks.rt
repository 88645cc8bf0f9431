//! The units of the characters at the front of blocks of 16 bytes: of equally many bytes each, or of one to three.
ghost use Rattle.std.specs.Prelude.{◌≡◌, ◌+◌, ◌*◌, ◌/◌, ◌%◌, ◌<◌, ◌≤◌, ℕ, true, false, not, List, length, map, take};
ghost use Rattle.std.specs.Prelude.{slice_index};
ghost use Rattle.std.specs.Simd.Lanes.{mask_l};
ghost use Rattle.tendril_fmt.specs.Units.{LeadsTwo, LeadsThree, LeadsFour, code_of_two, code_of_three, code_of_four};
ghost use Rattle.tendril_fmt.specs.Units.{continues, starts, unit_of_bytes_at, unit_of_bytes};

use crate::blocks::first_set;
use std::simd::prelude::*;

/// How many characters of three bytes fit in a block.
pub(crate) const THREES: usize = 5;

/// How many characters of two bytes fit in a block.
pub(crate) const TWOS: usize = 8;

// Where characters of two bytes begin, of three, and of four. The last lanes of `FIRST_OF_THREE` repeat the fifth.
const FIRST_OF_TWO: [usize; 8] = [0, 2, 4, 6, 8, 10, 12, 14];

const FIRST_OF_THREE: [usize; 8] = [0, 3, 6, 9, 12, 12, 12, 12];

const FIRST_OF_FOUR: [usize; 4] = [0, 4, 8, 12];

/// How many bytes half a block has.
pub(crate) const HALF: usize = 8;

// The places of the two halves.
const FRONT: [usize; 8] = [0, 1, 2, 3, 4, 5, 6, 7];

const BACK: [usize; 8] = [8, 9, 10, 11, 12, 13, 14, 15];

/// The units of a block of ASCII.
#[inline(always)]
pub(crate) fn units_of_ascii(block: u8x16) -> u16x16
    ensures { result ≡ block }
{
    block.cast::<u16>()
}

/// How many characters of two bytes a block begins with.
#[inline(always)]
pub(crate) fn count_twos(block: u8x16) -> usize
    ensures few { result ≤ TWOS }
    ensures leads { (k : ℕ) → k < result → LeadsTwo (slice_index block (2 * k)) }
    ensures stops { result < TWOS → ¬ (LeadsTwo (slice_index block (2 * result))) }
{
    let leads: u8x8 = block.swizzle(FIRST_OF_TWO);
    let others = (leads / u8x8::splat(0x20)).simd_ne(u8x8::splat(0xC0 / 0x20));
    first_set(others.to_bitmask(), TWOS)
}

/// The units of eight characters of two bytes.
#[inline(always)]
pub(crate) fn units_of_twos(block: u8x16) -> u16x8
    ensures { (k : ℕ) → k < TWOS
        → slice_index result k ≡ code_of_two (slice_index block (2 * k)) (slice_index block (2 * k + 1)) }
{
    let first: u8x8 = block.swizzle(FIRST_OF_TWO);
    let second: u8x8 = block.swizzle([1, 3, 5, 7, 9, 11, 13, 15]);
    first.cast::<u16>() % u16x8::splat(0x20) * u16x8::splat(0x40)
        + second.cast::<u16>() % u16x8::splat(0x40)
}

/// How many characters of three bytes a block begins with.
#[inline(always)]
pub(crate) fn count_threes(block: u8x16) -> usize
    ensures few { result ≤ THREES }
    ensures leads { (k : ℕ) → k < result → LeadsThree (slice_index block (3 * k)) }
    ensures stops { result < THREES → ¬ (LeadsThree (slice_index block (3 * result))) }
{
    let leads: u8x8 = block.swizzle(FIRST_OF_THREE);
    let others = (leads / u8x8::splat(0x10)).simd_ne(u8x8::splat(0xE0 / 0x10));
    // Of the lanes that repeat the fifth none is the first that differs.
    first_set(others.to_bitmask(), 8).min(THREES)
}

/// The units of five characters of three bytes. The last three lanes aren't specified.
#[inline(always)]
pub(crate) fn units_of_threes(block: u8x16) -> u16x8
    ensures { (k : ℕ) → k < THREES
        → slice_index result k
        ≡ code_of_three (slice_index block (3 * k)) (slice_index block (3 * k + 1)) (slice_index block (3 * k + 2)) }
{
    let first: u8x8 = block.swizzle(FIRST_OF_THREE);
    let second: u8x8 = block.swizzle([1, 4, 7, 10, 13, 13, 13, 13]);
    let third: u8x8 = block.swizzle([2, 5, 8, 11, 14, 14, 14, 14]);
    first.cast::<u16>() % u16x8::splat(0x10) * u16x8::splat(0x1000)
        + second.cast::<u16>() % u16x8::splat(0x40) * u16x8::splat(0x40)
        + third.cast::<u16>() % u16x8::splat(0x40)
}

/// Whether a block is four characters of four bytes.
#[inline(always)]
pub(crate) fn are_fours(block: u8x16) -> bool
    ensures { result ≡ true → (k : ℕ) → k < 4 → LeadsFour (slice_index block (4 * k)) }
{
    let leads: u8x4 = block.swizzle(FIRST_OF_FOUR);
    leads.simd_lt(u8x4::splat(0xF0)).to_bitmask() == 0
}

/// The units of four characters of four bytes, a lead and a trail each.
#[inline(always)]
pub(crate) fn units_of_fours(block: u8x16) -> u16x8
    ensures leads { (k : ℕ) → k < 4
        → slice_index result (2 * k) + 0x40
        ≡ 0xD800 + code_of_four (slice_index block (4 * k)) (slice_index block (4 * k + 1))
        (slice_index block (4 * k + 2)) (slice_index block (4 * k + 3)) / 0x400 }
    ensures trails { (k : ℕ) → k < 4
        → slice_index result (2 * k + 1)
        ≡ 0xDC00 + code_of_four (slice_index block (4 * k)) (slice_index block (4 * k + 1))
        (slice_index block (4 * k + 2)) (slice_index block (4 * k + 3)) % 0x400 }
{
    let first: u8x4 = block.swizzle(FIRST_OF_FOUR);
    let second: u8x4 = block.swizzle([1, 5, 9, 13]);
    let third: u8x4 = block.swizzle([2, 6, 10, 14]);
    let fourth: u8x4 = block.swizzle([3, 7, 11, 15]);
    let third = third.cast::<u16>() % u16x4::splat(0x40);
    // A pair encodes its code point less 0x1_0000: 0xD7C0 is 0xD800 less 0x1_0000 / 0x400.
    let leads = first.cast::<u16>() % u16x4::splat(8) * u16x4::splat(0x100)
        + second.cast::<u16>() % u16x4::splat(0x40) * u16x4::splat(4)
        + third / u16x4::splat(0x10)
        + u16x4::splat(0xD7C0);
    let trails = third % u16x4::splat(0x10) * u16x4::splat(0x40)
        + fourth.cast::<u16>() % u16x4::splat(0x40)
        + u16x4::splat(0xDC00);
    leads.shuffle(trails, [0, 4, 1, 5, 2, 6, 3, 7])
}

/// Whether no character of four bytes begins in the first eight bytes of a block.
#[inline(always)]
pub(crate) fn lacks_four(block: u8x16) -> bool
    ensures { result ≡ true → (k : ℕ) → k < HALF → slice_index block k < 0xF0 }
{
    let front: u8x8 = block.swizzle(FRONT);
    front.simd_ge(u8x8::splat(0xF0)).to_bitmask() == 0
}

/// The units of the characters that begin in the first eight bytes of a block, if none has four bytes, and how many
/// these characters are. The other lanes aren't specified. No character costs a branch.
#[inline(always)]
pub(crate) fn units_of_mixed(block: u8x16) -> (u16x8, usize)
    ensures few { result.1 ≤ HALF }
    ensures units { take result.1 result.0 ≡ map (unit_of_bytes_at block) (starts 0 (take HALF block)) }
{
    let marks = mark_starts(block.swizzle(FRONT));
    let places = places_of(marks);
    let first = bytes_at(block, places);
    let second = bytes_at(block, places + u8x8::splat(1));
    let third = bytes_at(block, places + u8x8::splat(2));
    let decoded = units_of_sequences(first, second, third);
    (decoded, marks.count_ones() as usize)
}

/// How many bytes in the second half of a block belong to a character that begins in the first.
#[inline(always)]
pub(crate) fn count_continuations(block: u8x16) -> usize
    ensures few { result ≤ HALF }
    ensures belong { (k : ℕ) → k < result → continues (slice_index block (HALF + k)) ≡ true }
    ensures stops { result < HALF → continues (slice_index block (HALF + result)) ≡ false }
{
    first_set(mark_starts(block.swizzle(BACK)), HALF)
}

// A bit for each byte, which is set if the byte begins a character.
#[inline(always)]
fn mark_starts(bytes: u8x8) -> u64
    ensures { result ≡ mask_l (map (λ b. not (continues b)) bytes) }
{
    (bytes / u8x8::splat(0x40))
        .simd_ne(u8x8::splat(2))
        .to_bitmask()
}

// The places of the set bits of a number, the lowest bit's first. The other lanes are some place.
#[inline(always)]
fn places_of(marks: u64) -> u8x8
    requires { marks < 0x100 }
    ensures places { (bytes : List ℕ) (k : ℕ) → length bytes ≡ HALF
        → marks ≡ mask_l (map (λ b. not (continues b)) bytes)
        → k < length (starts 0 bytes) → slice_index result k ≡ slice_index (starts 0 bytes) k }
    ensures below { (k : ℕ) → k < HALF → slice_index result k < HALF }
{
    let packed = u8x4::from_array(PLACES[marks as usize].to_le_bytes());
    let (even, odd) = (packed % u8x4::splat(0x10), packed / u8x4::splat(0x10));
    even.shuffle(odd, [0, 4, 1, 5, 2, 6, 3, 7])
}

// The units of characters of one to three bytes, by the first three bytes at the place of each.
#[inline(always)]
fn units_of_sequences(first: u16x8, second: u16x8, third: u16x8) -> u16x8
    ensures { (k : ℕ) → k < HALF
        → slice_index result k ≡ unit_of_bytes (slice_index first k) (slice_index second k) (slice_index third k) }
{
    let last = second % u16x8::splat(0x40);
    let two = first % u16x8::splat(0x20) * u16x8::splat(0x40) + last;
    let three = first % u16x8::splat(0x10) * u16x8::splat(0x1000)
        + last * u16x8::splat(0x40)
        + third % u16x8::splat(0x40);
    let longer = first.simd_lt(u16x8::splat(0xE0)).select(two, three);
    first.simd_lt(u16x8::splat(0x80)).select(first, longer)
}

// The bytes at eight places of a block.
#[inline(always)]
fn bytes_at(block: u8x16, places: u8x8) -> u16x8
    requires { (k : ℕ) → k < HALF → slice_index places k < 16 }
    ensures { (k : ℕ) → k < HALF → slice_index result k ≡ slice_index block (slice_index places k) }
{
    let twice: u8x16 = places.swizzle([0, 1, 2, 3, 4, 5, 6, 7, 0, 1, 2, 3, 4, 5, 6, 7]);
    let found: u8x8 = block.swizzle_dyn(twice).swizzle(FRONT);
    found.cast::<u16>()
}

// For each number from 0 to 255 the places of its set bits, a hexadecimal digit each: the lowest bit's is the last
// digit.
const PLACES: [u32; 256] = [
    0, 0, 1, 0x10, 2, 0x20, 0x21, 0x210, 3, 0x30, 0x31, 0x310, 0x32, 0x320, 0x321, 0x3210, 4, 0x40,
    0x41, 0x410, 0x42, 0x420, 0x421, 0x4210, 0x43, 0x430, 0x431, 0x4310, 0x432, 0x4320, 0x4321,
    0x43210, 5, 0x50, 0x51, 0x510, 0x52, 0x520, 0x521, 0x5210, 0x53, 0x530, 0x531, 0x5310, 0x532,
    0x5320, 0x5321, 0x53210, 0x54, 0x540, 0x541, 0x5410, 0x542, 0x5420, 0x5421, 0x54210, 0x543,
    0x5430, 0x5431, 0x54310, 0x5432, 0x54320, 0x54321, 0x543210, 6, 0x60, 0x61, 0x610, 0x62, 0x620,
    0x621, 0x6210, 0x63, 0x630, 0x631, 0x6310, 0x632, 0x6320, 0x6321, 0x63210, 0x64, 0x640, 0x641,
    0x6410, 0x642, 0x6420, 0x6421, 0x64210, 0x643, 0x6430, 0x6431, 0x64310, 0x6432, 0x64320,
    0x64321, 0x643210, 0x65, 0x650, 0x651, 0x6510, 0x652, 0x6520, 0x6521, 0x65210, 0x653, 0x6530,
    0x6531, 0x65310, 0x6532, 0x65320, 0x65321, 0x653210, 0x654, 0x6540, 0x6541, 0x65410, 0x6542,
    0x65420, 0x65421, 0x654210, 0x6543, 0x65430, 0x65431, 0x654310, 0x65432, 0x654320, 0x654321,
    0x6543210, 7, 0x70, 0x71, 0x710, 0x72, 0x720, 0x721, 0x7210, 0x73, 0x730, 0x731, 0x7310, 0x732,
    0x7320, 0x7321, 0x73210, 0x74, 0x740, 0x741, 0x7410, 0x742, 0x7420, 0x7421, 0x74210, 0x743,
    0x7430, 0x7431, 0x74310, 0x7432, 0x74320, 0x74321, 0x743210, 0x75, 0x750, 0x751, 0x7510, 0x752,
    0x7520, 0x7521, 0x75210, 0x753, 0x7530, 0x7531, 0x75310, 0x7532, 0x75320, 0x75321, 0x753210,
    0x754, 0x7540, 0x7541, 0x75410, 0x7542, 0x75420, 0x75421, 0x754210, 0x7543, 0x75430, 0x75431,
    0x754310, 0x75432, 0x754320, 0x754321, 0x7543210, 0x76, 0x760, 0x761, 0x7610, 0x762, 0x7620,
    0x7621, 0x76210, 0x763, 0x7630, 0x7631, 0x76310, 0x7632, 0x76320, 0x76321, 0x763210, 0x764,
    0x7640, 0x7641, 0x76410, 0x7642, 0x76420, 0x76421, 0x764210, 0x7643, 0x76430, 0x76431,
    0x764310, 0x76432, 0x764320, 0x764321, 0x7643210, 0x765, 0x7650, 0x7651, 0x76510, 0x7652,
    0x76520, 0x76521, 0x765210, 0x7653, 0x76530, 0x76531, 0x765310, 0x76532, 0x765320, 0x765321,
    0x7653210, 0x7654, 0x76540, 0x76541, 0x765410, 0x76542, 0x765420, 0x765421, 0x7654210, 0x76543,
    0x765430, 0x765431, 0x7654310, 0x765432, 0x7654320, 0x7654321, 0x76543210,
];
