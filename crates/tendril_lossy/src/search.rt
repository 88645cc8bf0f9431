//! The search for broken sequences in a stream of UTF-8.
ghost use Rattle.std.specs.Prelude.{◌≡◌, ℕ, ◌+◌, ◌<◌, ◌≤◌, ◌++◌, ◌&&◌, length, map, take, slice_index, chars, IsUtf8};
ghost use Rattle.std.specs.Prelude.{IfSome, IfOk, IfErr, OnErr};
ghost use Rattle.std.specs.Int.{is_in_range, from_le_bytes, w64};
ghost use Rattle.std.specs.Str.{StartsWithNoChar};
ghost use Rattle.std.specs.Str.Lossy.{second_byte_min, second_byte_max, utf8_error_len};
ghost use Rattle.tendril_lossy.specs.AfterText.{EndsWithin, items_after};
ghost use Rattle.tendril_lossy.specs.Lossy.{Keep, lossy};

/// What follows the longest valid prefix: nothing, a broken sequence of some bytes, or a character that is cut off.
#[derive(Clone, Copy, Debug, PartialEq, Eq)]
pub enum Ending {
    Whole,
    Broken(usize),
    Open,
}

// The size of the first window, if no broken sequence is expected nearby.
const WINDOW: usize = 128;

// A first window of fewer bytes than these is read one character after another.
const NEAR: usize = 64;

/// The longest valid prefix, and what follows it.
pub fn first_part(bytes: &[u8]) -> (&str, Ending)
    ensures front { result.0.now ≡ take (length result.0.now) bytes.now }
    ensures items { lossy bytes.now ≡ map Keep (chars result.0.now)
        ++ items_after bytes.now (length result.0.now) result.1 }
    ensures within { EndsWithin bytes.now (length result.0.now) result.1 }
{
    first_part_by(bytes, WINDOW)
}

/// The longest valid prefix, and what follows it. First searches a window of `first` bytes, which changes only the
/// time: few, if a broken sequence is likely nearby.
pub fn first_part_by(bytes: &[u8], first: usize) -> (&str, Ending)
    requires { 4 ≤ first }
    ensures front { result.0.now ≡ take (length result.0.now) bytes.now }
    ensures items { lossy bytes.now ≡ map Keep (chars result.0.now)
        ++ items_after bytes.now (length result.0.now) result.1 }
    ensures within { EndsWithin bytes.now (length result.0.now) result.1 }
{
    if NEAR <= first {
        return by_windows(bytes, 0, first);
    }
    let (at, ending) = near(bytes, first);
    match ending {
        Some(ending) => {
            let text = unsafe { std::str::from_utf8_unchecked(&bytes[..at]) };
            (text, ending)
        }
        None => by_windows(bytes, at, WINDOW),
    }
}

// The longest valid prefix, and what follows it, if the first `at` bytes are valid. Validates one window after another,
// each twice as long as the one before.
fn by_windows(bytes: &[u8], mut at: usize, mut window: usize) -> (&str, Ending)
    requires within { at ≤ length bytes.now }
    requires text { IsUtf8 (take at bytes.now) }
    requires some { 4 ≤ window }
    ensures front { result.0.now ≡ take (length result.0.now) bytes.now }
    ensures items { lossy bytes.now ≡ map Keep (chars result.0.now)
        ++ items_after bytes.now (length result.0.now) result.1 }
    ensures within { EndsWithin bytes.now (length result.0.now) result.1 }
{
    while bytes.len() - at > window {
        let end = char_start(bytes, at + window);
        match simdutf8::compat::from_utf8(&bytes[at..end]) {
            Ok(_text) => at = end,
            Err(error) => {
                at += error.valid_up_to();
                if let Some(len) = error.error_len() {
                    let text = unsafe { std::str::from_utf8_unchecked(&bytes[..at]) };
                    return (text, Ending::Broken(len));
                }
            }
        }
        window *= 2;
    }
    let at = last_start(bytes, at);
    match simdutf8::compat::from_utf8(&bytes[at..]) {
        Ok(_text) => (
            unsafe { std::str::from_utf8_unchecked(bytes) },
            Ending::Whole,
        ),
        Err(error) => {
            let at = at + error.valid_up_to();
            let text = unsafe { std::str::from_utf8_unchecked(&bytes[..at]) };
            match error.error_len() {
                Some(len) => (text, Ending::Broken(len)),
                None => (text, Ending::Open),
            }
        }
    }
}

// The length of the longest valid prefix and what follows it, if it ends among the first `count` bytes or soon after;
// else the length of a valid prefix. Reads one character after another: a call that validates a window costs more than
// a few of them.
#[inline]
fn near(bytes: &[u8], count: usize) -> (usize, Option<Ending>)
    ensures within { result.0 ≤ length bytes.now }
    ensures text { IsUtf8 (take result.0 bytes.now) }
    ensures items { IfSome result.1 (λ ending. lossy bytes.now ≡ map Keep (chars (take result.0 bytes.now))
        ++ items_after bytes.now result.0 ending) }
{
    let mut at = 0;
    while at < count {
        // Below, eight bytes are read, and a character of at most four after them.
        if bytes.len() - at < 12 {
            let (end, ending) = near_end(bytes, at);
            return (end, Some(ending));
        }
        at += ascii_front(&bytes[at..at + 8]);
        match first_char_len(&bytes[at..]) {
            Ok(len) => at += len,
            Err(len) => return (at, Some(Ending::Broken(len))),
        }
    }
    (at, None)
}

// The length of the longest valid prefix and what follows it, if the first `at` bytes are valid and few follow. Not
// inlined: a search calls it at most once.
#[inline(never)]
fn near_end(bytes: &[u8], at: usize) -> (usize, Ending)
    requires within { at ≤ length bytes.now }
    requires text { IsUtf8 (take at bytes.now) }
    ensures within { result.0 ≤ length bytes.now }
    ensures text { IsUtf8 (take result.0 bytes.now) }
    ensures items { lossy bytes.now ≡ map Keep (chars (take result.0 bytes.now))
        ++ items_after bytes.now result.0 result.1 }
{
    match std::str::from_utf8(&bytes[at..]) {
        Ok(_text) => (bytes.len(), Ending::Whole),
        Err(error) => {
            let end = at + error.valid_up_to();
            match error.error_len() {
                Some(len) => (end, Ending::Broken(len)),
                None => (end, Ending::Open),
            }
        }
    }
}

// How many of the first eight bytes are before the first that isn't ASCII. Reads them as one number, without a branch.
#[inline(always)]
fn ascii_front(bytes: &[u8]) -> usize
    requires { 8 ≤ length bytes.now }
    ensures within { result ≤ 8 }
    ensures ascii { (k : ℕ) → k < result → slice_index bytes.now k < 128 }
    ensures stops { result < 8 → 128 ≤ slice_index bytes.now result }
{
    ((word_of_eight(bytes) & 0x8080_8080_8080_8080).trailing_zeros() / 8) as usize
}

// The first eight bytes as a number, in little-endian order.
#[inline(always)]
fn word_of_eight(bytes: &[u8]) -> u64
    requires { 8 ≤ length bytes.now }
    ensures { result ≡ from_le_bytes w64 bytes.now }
{
    match bytes {
        [a, b, c, d, e, f, g, h, ..] => u64::from_le_bytes([*a, *b, *c, *d, *e, *f, *g, *h]),
        _ => 0,
    }
}

// How many bytes the first character has, or as an error how many the broken sequence in its place has.
#[inline(always)]
fn first_char_len(bytes: &[u8]) -> Result<usize, usize>
    requires { 4 ≤ length bytes.now }
    ensures some { IfOk result (λ len. (0 < len) × (len ≤ 4)) }
    ensures text { IfOk result (λ len. IsUtf8 (take len bytes.now)) }
    ensures none { OnErr result (StartsWithNoChar bytes.now) }
    ensures fault { IfErr result (λ len. utf8_error_len bytes.now ≡ Some len) }
{
    let first = bytes[0];
    if first < 0x80 {
        return Ok(1);
    }
    if !begin_char(first, bytes[1]) {
        return Err(1);
    }
    if first < 0xE0 {
        return Ok(2);
    }
    if !goes_on(bytes[2]) {
        return Err(2);
    }
    if first < 0xF0 {
        return Ok(3);
    }
    if !goes_on(bytes[3]) {
        return Err(3);
    }
    Ok(4)
}

// Whether two bytes begin a character that isn't ASCII. Most broken sequences are found here. The passed tests are
// counted, since joined by `&` each test becomes a branch, which random bytes make unpredictable.
#[inline(always)]
fn begin_char(first: u8, second: u8) -> bool
    ensures { result ≡ (is_in_range 0xC2 0xF4 first && is_in_range (second_byte_min first)
        (second_byte_max first) second) }
{
    let passed = u8::from(0xC2 <= first)
        + u8::from(first <= 0xF4)
        + u8::from(least_second(first) <= second)
        + u8::from(second <= greatest_second(first));
    passed == 4
}

// The least byte that may follow the first one of a character: below it the character would fit fewer bytes.
#[inline(always)]
fn least_second(first: u8) -> u8
    ensures { result ≡ second_byte_min first }
{
    if first == 0xE0 {
        0xA0
    } else if first == 0xF0 {
        0x90
    } else {
        0x80
    }
}

// The greatest byte that may follow the first one: above it are surrogates, or numbers that are no code points.
#[inline(always)]
fn greatest_second(first: u8) -> u8
    ensures { result ≡ second_byte_max first }
{
    if first == 0xED {
        0x9F
    } else if first == 0xF4 {
        0x8F
    } else {
        0xBF
    }
}

// Whether the byte continues a character.
#[inline(always)]
fn goes_on(byte: u8) -> bool
    ensures { result ≡ is_in_range 0x80 0xBF byte }
{
    byte & 0xC0 == 0x80
}

// The start of the last character, if it has more than one byte and all bytes before it are valid; else `at`. To find
// where bytes are cut off takes longer than to validate them.
fn last_start(bytes: &[u8], at: usize) -> usize
    requires within { at ≤ length bytes.now }
    requires text { IsUtf8 (take at bytes.now) }
    ensures within { result ≤ length bytes.now }
    ensures text { IsUtf8 (take result bytes.now) }
{
    if bytes.len() - at <= 4 || bytes[bytes.len() - 1].is_ascii() {
        return at;
    }
    let end = char_start(bytes, bytes.len() - 1);
    match simdutf8::basic::from_utf8(&bytes[at..end]) {
        Ok(_text) => end,
        Err(_) => at,
    }
}

// The last offset up to `at` where a character may begin, or the third before `at`, if none of the later ones is.
fn char_start(bytes: &[u8], at: usize) -> usize
    requires { (3 < at) × (at < length bytes.now) }
    ensures { (result ≤ at) × (at ≤ result + 3) }
{
    back_in_char(bytes, back_in_char(bytes, back_in_char(bytes, at)))
}

// The offset before `at`, if no character can begin at `at`; else `at`.
fn back_in_char(bytes: &[u8], at: usize) -> usize
    requires { (0 < at) × (at < length bytes.now) }
    ensures { (result ≤ at) × (at ≤ result + 1) }
{
    if goes_on(bytes[at]) { at - 1 } else { at }
}
