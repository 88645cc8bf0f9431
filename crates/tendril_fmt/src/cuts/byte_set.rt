//! Small sets of bytes, and searches for the first byte of a set.
ghost use Rattle.std.specs.Prelude.{◌≡◌, ◌≢◌, ◌<◌, ◌≤◌, ◌↔◌, ◌==◌, if◌then◌else◌, ℕ, true, false, length, map, IsAscii};
ghost use Rattle.std.specs.Prelude.{Contains, slice_index, IsFalse};
ghost use Rattle.std.specs.Int.{bit_at};
ghost use Rattle.memchr.specs.Find.{IsFirstByte, Nowhere, Passes};
ghost use Rattle.tendril_fmt.specs.Sets.{has_byte, is_byte4, is_member, AreAsciiMembers, IsTable};

use std::marker::Model;
use std::simd::prelude::*;

/// A set of ASCII bytes, to search for.
///
/// Write a set of one to four bytes as a constant, and call `new` outside the loop for any other. A byte of a constant
/// that isn't ASCII is a compile error in the first function that uses the constant.
///
/// Contracts see it as a list of 256 Booleans: whether each byte is in the set.
///
/// ```
/// const SPACE: ByteSet = ByteSet { members: Members::Four(b' ', b'\t', b'\r', b'\n') };
/// let text = StrTendril::from_slice(alloc, "two words")?;
/// assert_eq!(rt; text.find_any(&SPACE), Some(3));
/// ```
#[derive(Drop)]
pub struct ByteSet {
    /// The bytes, all ASCII.
    pub members: Members,
}

/// The bytes of a `ByteSet`. One to four are searched for 16 bytes at a time, those of a table byte by byte.
#[derive(Drop)]
pub enum Members {
    /// One byte.
    One(u8),
    /// Two bytes.
    Two(u8, u8),
    /// Three bytes.
    Three(u8, u8, u8),
    /// Four bytes.
    Four(u8, u8, u8, u8),
    /// Any number of bytes: whether each byte is in the set. `ByteSet::new` fills it.
    Table([bool; 256]),
}

impl Model for ByteSet {
    ghost use Rattle.std.specs.Prelude.{Bool, List};
    ghost use Rattle.tendril_fmt.specs.Sets.{member_table, AreAsciiMembers};

    ghost Value = { List Bool };

    ghost view = { λ s. member_table s.members };

    ghost invariant = { λ s. AreAsciiMembers s.members };
}

impl ByteSet {
    // Not a `const fn`: a constant can't call a function.
    /// Returns the set of these bytes, which the caller proves to be ASCII.
    ///
    /// Fills a table of 256 bytes, unless they are one to four.
    ///
    /// ```
    /// let ends = ByteSet::new(b"<&");
    /// assert_eq!(rt; ends.contains(b'<'), true);
    /// ```
    pub fn new(bytes: &[u8]) -> Self
        requires ascii { IsAscii bytes.now }
        ensures { (b : ℕ) → (has_byte result b ≡ true) ↔ Contains bytes.now b }
    {
        ByteSet {
            members: members_of(bytes),
        }
    }

    /// Whether the byte is in the set. Takes constant time.
    ///
    /// ```
    /// assert_eq!(rt; ByteSet::new(b"<&").contains(b'>'), false);
    /// ```
    pub fn contains(&self, byte: u8) -> bool
        ensures { result ≡ has_byte self.now byte }
    {
        is_among(&self.members, byte)
    }

    /// Returns the index of the first byte that is in the set.
    ///
    /// ```
    /// assert_eq!(rt; ByteSet::new(b"<&").find_in(b"a & b"), Some(2));
    /// ```
    pub fn find_in(&self, bytes: &[u8]) -> Option<usize>
        ensures first { IsFirstByte (has_byte self.now) bytes.now result }
        ensures table { IsTable self.now }
    {
        find_member(&self.members, bytes)
    }
}

// These bytes as members.
fn members_of(bytes: &[u8]) -> Members
    requires { IsAscii bytes.now }
    ensures ascii { AreAsciiMembers result }
    ensures members { (b : ℕ) → (is_member result b ≡ true) ↔ Contains bytes.now b }
{
    match *bytes {
        [a] => Members::One(a),
        [a, b] => Members::Two(a, b),
        [a, b, c] => Members::Three(a, b, c),
        [a, b, c, d] => Members::Four(a, b, c, d),
        _ => Members::Table(table_of(bytes)),
    }
}

// The table of these bytes.
fn table_of(bytes: &[u8]) -> [bool; 256]
    requires ascii { IsAscii bytes.now }
    ensures table { IsTable result }
    ensures members { (b : ℕ) → (has_byte result b ≡ true) ↔ Contains bytes.now b }
{
    let mut members = [false; 256];
    for byte in bytes {
        members[*byte as usize] = true;
    }
    members
}

// Whether the byte is one of the members.
fn is_among(members: &Members, byte: u8) -> bool
    ensures { result ≡ is_member members.now byte }
{
    match members {
        Members::One(a) => is_one_of(*a, *a, *a, *a, byte),
        Members::Two(a, b) => is_one_of(*a, *b, *b, *b, byte),
        Members::Three(a, b, c) => is_one_of(*a, *b, *c, *c, byte),
        Members::Four(a, b, c, d) => is_one_of(*a, *b, *c, *d, byte),
        Members::Table(table) => table[byte as usize],
    }
}

// The index of the first byte that is one of the members.
fn find_member(members: &Members, bytes: &[u8]) -> Option<usize>
    ensures { IsFirstByte (is_member members.now) bytes.now result }
{
    match members {
        Members::One(a) => find_one_of(*a, *a, *a, *a, bytes),
        Members::Two(a, b) => find_one_of(*a, *b, *b, *b, bytes),
        Members::Three(a, b, c) => find_one_of(*a, *b, *c, *c, bytes),
        Members::Four(a, b, c, d) => find_one_of(*a, *b, *c, *d, bytes),
        Members::Table(table) => find_in_table(table, bytes),
    }
}

// The index of the first byte that is one of the four.
fn find_one_of(a: u8, b: u8, c: u8, d: u8, bytes: &[u8]) -> Option<usize>
    ensures { IsFirstByte (is_byte4 a b c d) bytes.now result }
{
    for at in skip_others(a, b, c, d, bytes)..bytes.len() {
        if is_one_of(a, b, c, d, bytes[at]) {
            return Some(at);
        }
    }
    None
}

// Returns an index before which none of the four is: of the first one, if vectors of sixteen bytes find it.
fn skip_others(a: u8, b: u8, c: u8, d: u8, bytes: &[u8]) -> usize
    ensures within { result ≤ length bytes.now }
    ensures passed { Nowhere (Passes (is_byte4 a b c d) bytes.now) 0 result }
{
    let mut at = 0;
    'sixteens: while 16 <= bytes.len() - at {
        let found = places_of(a, b, c, d, &bytes[at..at + 16]);
        if found != 0 {
            return at + lowest(found);
        }
        at += 16;
    }
    // Eight more, if none of them is one of the four.
    if 8 <= bytes.len() - at && !has_any(a, b, c, d, &bytes[at..at + 8]) {
        at += 8;
    }
    at
}

// Bit k is set if byte k of sixteen is one of the four.
#[inline(always)]
fn places_of(a: u8, b: u8, c: u8, d: u8, bytes: &[u8]) -> u64
    requires { length bytes.now ≡ 16 }
    ensures others { (k : ℕ) → k < 16 → bit_at result k ≡ 0 → is_byte4 a b c d (slice_index bytes.now k) ≡ false }
    ensures within { (k : ℕ) → bit_at result k ≡ 1 → k < 16 }
{
    let block = u8x16::from_slice(bytes);
    let any = equal_to(block, a) | equal_to(block, b) | equal_to(block, c) | equal_to(block, d);
    any.simd_ge(u8x16::splat(128)).to_bitmask()
}

// All bits of a lane are set if it has the byte, else none.
#[inline(always)]
fn equal_to(block: u8x16, byte: u8) -> u8x16
    ensures { result ≡ map (λ x. if x == byte then 255 else 0) block }
{
    let same = block.simd_eq(u8x16::splat(byte));
    same.select(u8x16::splat(255), u8x16::splat(0))
}

// The place of the lowest bit that is set.
#[inline(always)]
fn lowest(bits: u64) -> usize
    requires { bits ≢ 0 }
    ensures set { bit_at bits result ≡ 1 }
    ensures below { (k : ℕ) → k < result → bit_at bits k ≡ 0 }
{
    bits.trailing_zeros() as usize
}

// Whether one of the four is among these bytes.
#[inline(always)]
fn has_any(a: u8, b: u8, c: u8, d: u8, bytes: &[u8]) -> bool
    ensures { IsFalse result → (k : ℕ) → k < length bytes.now → is_byte4 a b c d (slice_index bytes.now k) ≡ false }
{
    let mut any = false;
    for byte in bytes {
        any |= is_one_of(a, b, c, d, *byte);
    }
    any
}

// Whether the byte is one of the four.
#[inline(always)]
fn is_one_of(a: u8, b: u8, c: u8, d: u8, byte: u8) -> bool
    ensures { result ≡ is_byte4 a b c d byte }
{
    (byte == a) | (byte == b) | (byte == c) | (byte == d)
}

// The index of the first byte that is in the table.
fn find_in_table(members: &[bool; 256], bytes: &[u8]) -> Option<usize>
    ensures { IsFirstByte (has_byte members.now) bytes.now result }
{
    for at in 0..bytes.len() {
        if members[bytes[at] as usize] {
            return Some(at);
        }
    }
    None
}
